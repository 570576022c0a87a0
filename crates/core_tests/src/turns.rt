//! A core, turn by turn.
ghost use Rattle.std.specs.Prelude.{◌≡◌, ◌<◌, IfOk};

use crate::jobs::job_of;
use batcher_core::{Core, Doing, Spun, Turn};
use limits::MOST_WORKERS;
use std::alloc::{AllocError, Global};
use std::test::Fail;
use test_rows::all_hold;

/// The text of a job, the number of workers, and a mark for each turn until the job is done, worker by worker and round
/// by round. A turn without an event has the mark `-`. Any other turn has the mark of what its worker then does: `s`
/// once it has started a leaf and made no call, `c` while it calls, and `+` for anything else.
const TURNS: &[(&[u8], u32, &str)] = &[
    // Worker 0 waits while worker 1 serves both calls, and has no event once it has arrived.
    (
        b"par { counter add 1 counter add 2 }",
        2,
        "+- ++ +s +c sc cc -c -c -c +c +c ++ ++ ++ -+ -+ -+",
    ),
    // A claim, a start, the work, an end and a finish.
    (b"work 3", 1, "+ s + + +"),
];

/// The mark of one turn of a worker, in which the work is done that is due.
fn mark_of_turn(core: &mut Core, worker: u32) -> Result<char, AllocError>
    requires { worker < core.old.workers }
{
    let turn = match core.turn(worker, None)? {
        Turn::Spin(steps) => core.turn(worker, Some(Spun::of(steps)))?,
        other => other,
    };
    let Turn::Moved = turn else {
        return Ok('-');
    };
    Ok(match core.doing(worker) {
        Doing::Started(_) => 's',
        Doing::Calling(_) => 'c',
        Doing::Other => '+',
    })
}

/// What the turns did until the core was over, or for a hundred turns.
fn trace(alloc: Global, core: &mut Core) -> Result<String, AllocError> {
    let mut marks = String::new(alloc);
    for turn in 0..100u32 {
        if core.is_over() {
            return Ok(marks);
        }
        let worker = turn % core.workers();
        if worker == 0 && 0 < turn {
            marks.push(' ')?;
        }
        marks.push(mark_of_turn(core, worker)?)?;
    }
    Ok(marks)
}

/// Whether the root is ready before these events and nothing after them, and the core is over then.
fn does(alloc: Global, core: &mut Core, marks: &str) -> Result<bool, AllocError> {
    let opened = core.ready(0) == [0].as_slice();
    let traced = trace(alloc, core)?.as_str() == marks;
    Ok(opened && traced && core.ready(0).is_empty() && core.is_over())
}

/// Whether a job's turns do these events, and its report has the workers.
fn is_run_so(alloc: Global, text: &[u8], workers: u32, marks: &str) -> Result<bool, AllocError> {
    let Some(job) = job_of(alloc, text) else {
        return Ok(false);
    };
    if workers == 0 || MOST_WORKERS < workers {
        return Ok(false);
    }
    let mut core = Core::start(alloc, &job, workers)?;
    if !does(alloc, &mut core, marks)? || !core.is_over() {
        return Ok(false);
    }
    Ok(core.report(alloc)?.workers == workers)
}

/// The place of the first run with other turns, if there is one.
fn first_run_otherwise(alloc: Global) -> Result<Option<usize>, AllocError> {
    for (place, row) in TURNS.iter().enumerate() {
        let (text, workers, marks) = *row;
        if !is_run_so(alloc, text, workers, marks)? {
            return Ok(Some(place));
        }
    }
    Ok(None)
}

#[test]
fn turns_do_these_events(rt: HostRuntime) -> Result<(), Fail> {
    all_hold(first_run_otherwise(rt.alloc())?)
}
