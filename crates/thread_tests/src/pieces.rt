//! Pieces of a batch in threads.

use piece_threads::{Pieces, run_pieces};
use std::alloc::{AllocError, Global};
use std::test::Fail;
use test_pauses::Meeting;

/// A visit of worker 0 or 1 to a meeting.
#[derive(Drop)]
struct Visit<'a> {
    meeting: &'a Meeting,
    worker: u32,
}

/// Pieces each of which is held at its meeting until the other one has come.
struct Visits;

impl<'a> Pieces<Visit<'a>, bool> for Visits {
    ghost use Rattle.std.specs.Prelude.{⊤};

    ghost meets = { λ visit kept. ⊤ };

    fn piece(_alloc: Global, visit: Visit<'a>) -> Result<bool, AllocError> {
        visit.meeting.meet(visit.worker);
        Ok(visit.meeting.was_kept())
    }
}

#[test]
fn two_pieces_are_at_work_at_one_time(rt: HostRuntime) -> Result<(), Fail> {
    let meeting = Meeting::new();
    let visits = vec![in rt.alloc();
        Visit {
            meeting: &meeting,
            worker: 0
        },
        Visit {
            meeting: &meeting,
            worker: 1
        },
    ]?;
    let kept = run_pieces::<_, Visit, bool, Visits>(&rt, rt.alloc(), visits, 2)?;
    assert!(rt; kept.as_slice() == [true, true].as_slice());
    Ok(())
}
