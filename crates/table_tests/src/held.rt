//! A run over the running table whose launcher is held where it has won the flag.

use crate::runs::{Ran, run_text};
use crate::workers::Made;
use std::test::Fail;
use test_pauses::AtWin;
use worker_turns::Called;

/// What the call of a leaf was answered, where it is among these.
fn called_at(leaf: u64, made: &[Made]) -> Option<Called> {
    for call in made {
        if u64::from(call.leaf) == leaf {
            return Some(call.called);
        }
    }
    None
}

/// Whether each of two workers made a call, and that of a leaf was told of no batch, and is in one of the first two.
fn is_in_first_two(leaf: u64, ran: &Ran) -> bool {
    let (_, zero, one) = ran;
    let call = called_at(leaf, zero).or(called_at(leaf, one));
    zero.len() == 1
        && one.len() == 1
        && call.is_some_and(|called| called.since == 0 && called.receipt.batch <= 1)
}

/// The second leaf's call is posted while the launcher of the first leaf's call is held, so it is told that there is no
/// batch yet.
#[test]
fn a_call_beside_a_launch_is_at_most_one_batch_later_than_told(
    rt: HostRuntime,
) -> Result<(), Fail> {
    let job = b"par { counter add 1 counter add 2 }";
    let pause = AtWin::new();
    let ran = run_text(&rt, rt.alloc(), job, usize::MAX, &pause)?.expect(&rt, "a report");
    assert!(rt;
        pause.wins.count() > 0
            && pause.wins.missed() == 0
            && pause.posts.was_kept()
            && is_in_first_two(pause.second_leaf(), &ran)
    );
    Ok(())
}
