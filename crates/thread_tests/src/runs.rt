//! Runs in threads: over the scheduler's core under one lock, and over the running table.
ghost use Rattle.std.specs.Prelude.{◌≡◌, IfOk, Some};
ghost use Rattle.sp_order.specs.Precedence.{tree_of, leaf_count};

use batch_history::{Batch, Report};
use locked_run::run_locked;
use run_points::NoPause;
use seq_objects::{Act, Op};
use sp_order::{Job, Shape};
use std::alloc::{AllocError, Global};
use std::test::Fail;
use test_pauses::{AtCalls, AtPosts, AtStarts, AtWin, Meeting};
use worker_loop::run_table;

/// The shape of `par { A B C D }`.
fn par_of_four(alloc: Global) -> Result<Shape, AllocError>
    ensures { IfOk result (λ shape. leaf_count (Some (tree_of shape)) ≡ 4) }
{
    let left = Shape::Par(Box::new(alloc, Shape::Leaf)?, Box::new(alloc, Shape::Leaf)?);
    let right = Shape::Par(Box::new(alloc, Shape::Leaf)?, Box::new(alloc, Shape::Leaf)?);
    Ok(Shape::Par(Box::new(alloc, left)?, Box::new(alloc, right)?))
}

/// `par { counter add 1 counter add 2 counter add 3 counter add 4 }`.
fn four_adds(alloc: Global) -> Result<Job, AllocError> {
    let shape = par_of_four(alloc)?;
    let acts = vec![in alloc;
        Act::Call(Op::CounterAdd(0, 1)),
        Act::Call(Op::CounterAdd(0, 2)),
        Act::Call(Op::CounterAdd(0, 3)),
        Act::Call(Op::CounterAdd(0, 4)),
    ]?;
    Ok(Job::of(Some(shape), acts))
}

/// `par { queue take queue take queue take queue take }`.
fn four_takes(alloc: Global) -> Result<Job, AllocError> {
    let shape = par_of_four(alloc)?;
    let take = Act::Call(Op::PqTake(0));
    let acts = vec![in alloc; take, take, take, take]?;
    Ok(Job::of(Some(shape), acts))
}

/// Whether each of two workers ran a leaf.
fn both_worked(report: &Report) -> bool {
    let mut seen = 0u32;
    for row in report.rows.list() {
        if row.worker < 2 {
            seen |= 1 << row.worker;
        }
    }
    seen == 3
}

/// How many calls a batch has.
fn size_of(batch: Option<&Batch>) -> usize {
    match batch {
        Some(batch) => batch.entries().len(),
        None => 0,
    }
}

/// The number of the batch in which the call of a leaf stands.
fn batch_of(report: &Report, leaf: u64) -> Option<usize> {
    let batches = report.history.batches();
    for number in 0..batches.len() {
        for entry in batches[number].entries() {
            if u64::from(entry.leaf) == leaf {
                return Some(number);
            }
        }
    }
    None
}

#[test]
fn two_workers_start_leaves_at_one_time(rt: HostRuntime) -> Result<(), Fail> {
    let job = four_adds(rt.alloc())?;
    let pause = AtStarts {
        starts: Meeting::new(),
    };
    let report = run_locked(&rt, rt.alloc(), &job, 2, &pause)?;
    assert!(rt; pause.starts.was_kept() && both_worked(&report));
    Ok(())
}

#[test]
fn two_workers_of_the_table_start_leaves_at_one_time(rt: HostRuntime) -> Result<(), Fail> {
    let job = four_adds(rt.alloc())?;
    let pause = AtStarts {
        starts: Meeting::new(),
    };
    let report = run_table(&rt, rt.alloc(), &job, 2, &pause)?;
    assert!(rt; pause.starts.was_kept() && both_worked(&report));
    Ok(())
}

#[test]
fn two_calls_that_are_pending_become_one_batch(rt: HostRuntime) -> Result<(), Fail> {
    let job = four_adds(rt.alloc())?;
    let pause = AtPosts {
        posts: Meeting::new(),
    };
    let report = run_table(&rt, rt.alloc(), &job, 2, &pause)?;
    assert!(rt; pause.posts.was_kept() && size_of(report.history.batches().first()) == 2);
    Ok(())
}

#[test]
fn two_workers_run_pieces_of_one_batch_at_one_time(rt: HostRuntime) -> Result<(), Fail> {
    let job = four_takes(rt.alloc())?;
    let pause = AtCalls::new();
    let report = run_table(&rt, rt.alloc(), &job, 2, &pause)?;
    assert!(rt;
        pause.posts.was_kept()
            && pause.pieces.was_kept()
            && size_of(report.history.batches().first()) == 2
            && pause.first_batch_places() == 8
    );
    Ok(())
}

#[test]
fn one_worker_makes_a_batch_of_each_call(rt: HostRuntime) -> Result<(), Fail> {
    let job = four_adds(rt.alloc())?;
    let report = run_table(&rt, rt.alloc(), &job, 1, &NoPause)?;
    assert!(rt; report.rows.list().len() == 4 && report.history.batches().len() == 4);
    Ok(())
}

/// The second call is posted while the launcher of the first is held, so it is told that there is no batch yet.
#[test]
fn a_call_beside_a_launch_waits_for_two_batches_at_most(rt: HostRuntime) -> Result<(), Fail> {
    let job = four_adds(rt.alloc())?;
    let pause = AtWin::new();
    let report = run_table(&rt, rt.alloc(), &job, 2, &pause)?;
    let since = 0;
    let batch = batch_of(&report, pause.second_leaf());
    assert!(rt;
        pause.wins.count() > 0
            && pause.wins.missed() == 0
            && pause.posts.was_kept()
            && batch.is_some_and(|number| number <= since + 1)
    );
    Ok(())
}
