//! Each program, run once.
ghost use Rattle.std.specs.Prelude.{◌≡◌, ◌<◌, ◌≤◌};

use crate::{
    balance_in_threads, chunks_in_threads, grid_job, sum_in_threads, ticket_job, total_in_threads,
    two_adds_in_threads,
};
use job_builder::{BuildError, Builder, Order};
use job_runs::run_by_turns;
use seq_objects::{Op, Reply};
use std::test::Fail;

#[test]
fn chunks_are_added_up(rt: HostRuntime) -> Result<(), Fail> {
    let items = [3u32, 1, 4, 1, 5, 9, 2, 6];
    let Ok(sum) = sum_in_threads(&rt, rt.alloc(), &items, 3, 3) else {
        panic!(rt; "no memory")
    };
    assert!(rt; sum == 31);
    Ok(())
}

#[test]
fn chunks_are_added_up_by_their_leaves(rt: HostRuntime) -> Result<(), Fail> {
    let items = [3u32, 1, 4, 1, 5, 9, 2, 6];
    let Ok(sum) = chunks_in_threads(&rt, rt.alloc(), &items, 3, 3) else {
        panic!(rt; "no memory")
    };
    assert!(rt; sum == 31);
    Ok(())
}

#[test]
fn chunks_are_added_up_and_told_to_a_counter(rt: HostRuntime) -> Result<(), Fail> {
    let items = [3u32, 1, 4, 1, 5, 9, 2, 6];
    let Ok(sum) = total_in_threads(&rt, rt.alloc(), &items, 3, 3) else {
        panic!(rt; "no memory")
    };
    assert!(rt; sum == 31);
    Ok(())
}

#[test]
fn two_additions_are_told_their_sums(rt: HostRuntime) -> Result<(), Fail> {
    let Ok(sums) = two_adds_in_threads(&rt, rt.alloc(), 7, 5, 2) else {
        panic!(rt; "no memory")
    };
    assert!(rt; sums == (7, 12) || sums == (12, 5));
    Ok(())
}

#[test]
fn interest_is_paid_on_a_deposit(rt: HostRuntime) -> Result<(), Fail> {
    let Ok(balance) = balance_in_threads(&rt, rt.alloc(), 250, 5, 2) else {
        panic!(rt; "no memory")
    };
    assert!(rt; balance == 262);
    Ok(())
}

#[test]
fn a_call_takes_the_value_of_work(rt: HostRuntime) -> Result<(), Fail> {
    let alloc = rt.alloc();
    let mut job = Builder::new(alloc, 7);
    let Ok(work) = job.work(3) else {
        panic!(rt; "no memory")
    };
    assert!(rt; matches!(job.work_with(work), Err(BuildError::NotVisible)));
    let Ok(_) = job.call_with(Op::CounterAdd(0, 0), work) else {
        panic!(rt; "no memory")
    };
    let Ok(job) = job.finish() else {
        panic!(rt; "no memory")
    };
    let Ok(ran) = run_by_turns(alloc, job, 2) else {
        panic!(rt; "no memory")
    };
    let Some(row) = ran.report().rows.list().first() else {
        panic!(rt; "no row")
    };
    let mut added = false;
    for batch in ran.report().history.batches() {
        for entry in batch.entries() {
            added |= entry.reply == Reply::Number(row.value);
        }
    }
    assert!(rt; added);
    Ok(())
}

#[test]
fn a_reply_is_visible_behind_its_block_alone(rt: HostRuntime) -> Result<(), Fail> {
    let alloc = rt.alloc();
    let mut job = Builder::new(alloc, 7);
    assert!(rt; job.open(Order::Parallel) == Ok(()));
    let Ok(sum) = job.call(Op::CounterAdd(0, 7)) else {
        panic!(rt; "no memory")
    };
    assert!(rt;
        matches!(
            job.call_with(Op::Push(0, 0), sum),
            Err(BuildError::NotVisible)
        )
    );
    assert!(rt; matches!(job.finish(), Err(BuildError::Unclosed)));
    assert!(rt; job.close() == Ok(()));
    assert!(rt; job.close() == Err(BuildError::NoBlock));
    let Ok(_) = job.call_with(Op::Push(0, 0), sum) else {
        panic!(rt; "no memory")
    };
    let Ok(_) = job.call(Op::Pop(0)) else {
        panic!(rt; "no memory")
    };
    let Ok(job) = job.finish() else {
        panic!(rt; "no memory")
    };
    let Ok(ran) = run_by_turns(alloc, job, 2) else {
        panic!(rt; "no memory")
    };
    let mut popped = false;
    for batch in ran.report().history.batches() {
        for entry in batch.entries() {
            popped |= entry.op == Op::Pop(0) && entry.reply == Reply::Number(7);
        }
    }
    assert!(rt; popped);
    Ok(())
}

#[test]
fn tickets_are_called_in_order(rt: HostRuntime) -> Result<(), Fail> {
    let alloc = rt.alloc();
    let Ok(service) = ticket_job(alloc, 4) else {
        panic!(rt; "no memory")
    };
    let Ok(ran) = run_by_turns(alloc, service.job, 3) else {
        panic!(rt; "no memory")
    };
    let mut called = 0;
    for batch in ran.report().history.batches() {
        for entry in batch.entries() {
            if entry.op == Op::PqTake(0) && called < 4 {
                called += 1;
                assert!(rt; entry.reply == Reply::Number(called));
            }
        }
    }
    assert!(rt; called == 4);
    Ok(())
}

#[test]
fn a_large_grid_runs(rt: HostRuntime) -> Result<(), Fail> {
    let alloc = rt.alloc();
    let Ok(job) = grid_job(alloc, 100, 100) else {
        panic!(rt; "no memory")
    };
    let Ok(ran) = run_by_turns(alloc, job, 4) else {
        panic!(rt; "no memory")
    };
    assert!(rt; ran.report().rows.list().len() == 10_000);
    assert!(rt; grid_job(alloc, 201, 100).is_err());
    Ok(())
}
