//! Runs of the core in which a worker has stopped for good.
ghost use Rattle.std.specs.Prelude.{◌≡◌, IsSome};

use crate::jobs::job_of;
use batcher_core::{Core, Ended, Spun, Turn, drive_some};
use sp_order::Job;
use std::alloc::{AllocError, Global};
use std::test::Fail;
use test_rows::all_hold;
use test_texts::{replayed, text_of};

const TWO_ADDS: &[u8] = b"par { counter add 1 counter add 2 }";

/// The report where worker 1 does all.
const BY_WORKER_1: &[u8] = b"workers 2 leaves 2 calls 2 batches 2\n\
batch 0 place 0 worker 1 leaf 0 counter add 1 -> 1\n\
batch 1 place 0 worker 1 leaf 1 counter add 2 -> 3\n\
leaf 0 worker 1 start 0 end 1 value 1\n\
leaf 1 worker 1 start 2 end 3 value 3\n";

/// How many turns of two workers, round robin, the job has.
const TURNS: u32 = 34;

/// How the run ends where worker 0, or worker 1, stops after so many turns, from 0 to all of them: `o` where the other
/// one brings it to its end, and `s` where it is stuck.
const ENDS: [&str; 2] = [
    // Worker 0 holds the block from its claim in turn 0 until it opens the left side in turn 4, and the left leaf from
    // its claim in turn 6 until it arrives in turn 26. Nobody else can go on with either. Between and after, it holds
    // nothing.
    "ossssoossssssssssssssssssssoooooooo",
    // Worker 1 holds the right leaf from its claim in turn 3 until it arrives in turn 31, as the second, and then the
    // block, which it finishes in turn 33.
    "oooosssssssssssssssssssssssssssssso",
];

/// How many calls the book has so far, where the core is not spent and the serial objects give their replies.
fn calls_of(alloc: Global, core: &Core) -> Result<Option<usize>, AllocError> {
    match core.history() {
        Some(history) => replayed(alloc, history),
        None => Ok(None),
    }
}

/// Takes so many turns, round robin. Answers whether before each the book replayed.
fn take_turns(alloc: Global, core: &mut Core, turns: u32) -> Result<bool, AllocError> {
    for turn in 0..turns {
        if calls_of(alloc, core)?.is_none() {
            return Ok(false);
        }
        let worker = turn % core.workers();
        if let Turn::Spin(steps) = core.turn(worker, None)? {
            core.turn(worker, Some(Spun::of(steps)))?;
        }
    }
    Ok(true)
}

/// What the worker goes on to that has not stopped.
fn go_on(alloc: Global, core: Core, stopped: u32) -> Result<Ended, AllocError>
    requires { core.workers ≡ 2 }
{
    if stopped == 0 {
        drive_some(alloc, core, &[false, true])
    } else {
        drive_some(alloc, core, &[true, false])
    }
}

/// How the run ends where a worker stops after so many turns and the other one goes on, if the book replayed before
/// each of these turns.
fn ended(alloc: Global, job: &Job, turns: u32, stopped: u32) -> Result<Option<Ended>, AllocError>
    requires { IsSome job.now.shape }
{
    let mut core = Core::start(alloc, job, 2)?;
    if !take_turns(alloc, &mut core, turns)? || core.workers() != 2 {
        return Ok(None);
    }
    Ok(Some(go_on(alloc, core, stopped)?))
}

/// The mark of a stuck core: `s` where its book replays and both workers end what is left, and `?` elsewhere.
fn mark_of_stuck(alloc: Global, core: Core) -> Result<char, AllocError> {
    if calls_of(alloc, &core)?.is_none() || core.workers() != 2 {
        return Ok('?');
    }
    match drive_some(alloc, core, &[true, true])? {
        Ended::Over(_) => Ok('s'),
        Ended::Stuck(_) => Ok('?'),
    }
}

/// How the run ends where a worker stops after so many turns, from 0 to all of them, and the other one goes on: `o`
/// where it is over, `s` where it is stuck and both then end what is left, and `?` where a book did not replay, or both
/// are stuck.
fn ends(alloc: Global, job: &Job, stopped: u32) -> Result<String, AllocError>
    requires { IsSome job.now.shape }
{
    let mut marks = String::new(alloc);
    for turns in 0..=TURNS {
        let mark = match ended(alloc, job, turns, stopped)? {
            None => '?',
            Some(Ended::Over(_report)) => 'o',
            Some(Ended::Stuck(core)) => mark_of_stuck(alloc, core)?,
        };
        marks.push(mark)?;
    }
    Ok(marks)
}

/// The place of the worker that stops with other ends, if there is one.
fn first_other_end(alloc: Global, job: &Job) -> Result<Option<usize>, AllocError>
    requires { IsSome job.now.shape }
{
    for (stopped, marks) in ENDS.iter().enumerate() {
        if ends(alloc, job, stopped as u32)?.as_str() != *marks {
            return Ok(Some(stopped));
        }
    }
    Ok(None)
}

#[test]
fn after_each_turn_a_worker_may_stop(rt: HostRuntime) -> Result<(), Fail> {
    let job = job_of(rt.alloc(), TWO_ADDS).expect(&rt, "a job");
    all_hold(first_other_end(rt.alloc(), &job)?)
}

/// Whether the run is over with worker 1 having done all, where worker 0 stops before its first turn.
fn is_done_by_worker_1(alloc: Global, job: &Job) -> Result<bool, AllocError>
    requires { IsSome job.now.shape }
{
    match ended(alloc, job, 0, 0)? {
        Some(Ended::Over(report)) => Ok(text_of(alloc, job, &report)?.as_slice() == BY_WORKER_1),
        _ => Ok(false),
    }
}

/// Whether the run is stuck with no call served, where worker 0 stops behind its first turn.
fn is_stuck_uncalled(alloc: Global, job: &Job) -> Result<bool, AllocError>
    requires { IsSome job.now.shape }
{
    match ended(alloc, job, 1, 0)? {
        Some(Ended::Stuck(core)) => Ok(calls_of(alloc, &core)? == Some(0)),
        _ => Ok(false),
    }
}

#[test]
fn a_worker_that_stops_without_a_task_costs_nothing(rt: HostRuntime) -> Result<(), Fail> {
    let job = job_of(rt.alloc(), TWO_ADDS).expect(&rt, "a job");
    assert!(rt; is_done_by_worker_1(rt.alloc(), &job)? && is_stuck_uncalled(rt.alloc(), &job)?);
    Ok(())
}
