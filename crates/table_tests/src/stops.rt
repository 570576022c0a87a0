//! One worker sets the stop word, and the other finds it: in the turn of a free worker, in its call, and where it waits
//! for a result of its launch.
use crate::runs::work_as_crew;
use crate::workers::{Plan, Team};
use job_lang::read_job;
use leaf_work::Spin;
use run_points::NoPause;
use sp_order::Job;
use std::alloc::{AllocError, Global};
use std::sync::Wait;
use std::test::Fail;
use std::thread::Threads;
use test_pauses::{AtPieces, Meeting};
use worker_turns::{Crew, Stop, free_turn};

/// Whether the turn of a free worker, or its call, ends as stopped once the other worker has set the stop word.
fn is_stopped<R: Wait>(rt: &R, alloc: Global, job: &Job, calls: bool) -> Result<bool, AllocError> {
    if job.shape().is_none() {
        return Ok(false);
    }
    let (crew, mut mes) = Crew::<_, Spin, Spin>::make(alloc, job, 2, &NoPause, &Spin)?;
    let mut one = mes.remove(1);
    let mut zero = mes.remove(0);
    crew.table.stop(&mut one.pass);
    if calls {
        let made = crew.work(rt, alloc, &mut zero, Plan::Call(1));
        return Ok(matches!(made, Err(Stop::Stopped)));
    }
    let did = free_turn(rt, alloc, &crew, &mut zero);
    Ok(matches!(did, Err(Stop::Stopped)))
}

#[test]
fn each_turn_finds_the_stop_word_of_the_other_worker(rt: HostRuntime) -> Result<(), Fail> {
    let alloc = rt.alloc();
    let job = read_job(alloc, b"counter add 1").ok().expect(&rt, "a job");
    assert!(rt; is_stopped(&rt, alloc, &job, false)? && is_stopped(&rt, alloc, &job, true)?);
    Ok(())
}

/// Whether a launcher that waits for a result is stopped, where the other worker has claimed that piece and ends for want
/// of memory. The call of one take has eight pieces.
fn is_stopped_in_its_wait<R: Threads + Wait + Sync>(
    rt: &R,
    alloc: Global,
    job: &Job,
) -> Result<bool, AllocError> {
    if job.shape().is_none() {
        return Ok(false);
    }
    let pause = AtPieces {
        pieces: Meeting::new(),
    };
    let (crew, mut mes) = Crew::<_, Spin, Spin>::make(alloc, job, 2, &pause, &Spin)?;
    let mut one = mes.remove(1);
    let mut zero = mes.remove(0);
    let (called, left) = work_as_crew(rt, alloc, &crew, &mut zero, &mut one, Plan::LeaveAPiece);
    Ok(
        pause.pieces.was_kept()
            && matches!(called, Err(Stop::Stopped))
            && matches!(left, Err(Stop::Memory)),
    )
}

#[test]
fn a_launcher_that_waits_finds_the_stop_word(rt: HostRuntime) -> Result<(), Fail> {
    let alloc = rt.alloc();
    let job = read_job(alloc, b"queue take").ok().expect(&rt, "a job");
    assert!(rt; is_stopped_in_its_wait(&rt, alloc, &job)?);
    Ok(())
}
