//! Runs over the running table in two threads: their reports replayed by the serial objects, and beside the receipts.
ghost use Rattle.std.specs.Prelude.{◌≡◌, ◌≤◌, length, IfOk, IsSome};
ghost use Rattle.core_table.specs.Passes.{job_in, IsPassOf};
ghost use Rattle.worker_crew.specs.Workers.{IsReady};
ghost use Rattle.limits.specs.declared.TheConstants.{MOST_JOB_BYTES};

use crate::workers::{Made, Plan, Team};
use batch_history::Report;
use core_model::Receipt;
use core_table::{CoreTable, Pass};
use job_lang::read_job;
use leaf_work::Spin;
use run_points::{NoPause, Pause};
use sp_order::Job;
use std::alloc::{AllocError, Global};
use std::sync::Wait;
use std::test::Fail;
use std::thread::{Threads, join_mut};
use test_texts::replayed;
use worker_crew::sending::{crews_go_to_threads, workers_go_to_threads};
use worker_turns::{Crew, Me, Stop};

/// Whether the batch and the place of each receipt have the entry of its call.
fn are_of(report: &Report, worker: u32, made: &[Made]) -> bool {
    for call in made {
        let Receipt {
            batch,
            place,
            reply,
        } = call.called.receipt;
        let Some(batch) = report.history.batches().get(batch as usize) else {
            return false;
        };
        let Some(entry) = batch.entries().get(place as usize) else {
            return false;
        };
        if (entry.worker, entry.leaf) != (worker, call.leaf) || entry.reply != reply {
            return false;
        }
    }
    true
}

/// What two workers make, each in a thread.
fn work_both<M: Send, C: Team<M> + Sync, R: Threads + Wait + Sync>(
    rt: &R,
    alloc: Global,
    team: &C,
    zero: &mut M,
    one: &mut M,
    plan: Plan,
) -> (Result<Vec<Made>, Stop>, Result<Vec<Made>, Stop>)
    requires zero { C.ready team.now zero.old }
    requires one { C.ready team.now one.old }
    ensures { IfOk result.1 (λ _. C.ready team.now one.new) }
{
    join_mut(
        rt,
        &mut || team.work(rt, alloc, zero, plan),
        &mut || team.work(rt, alloc, one, plan),
    )
}

/// What two workers of a crew make.
pub(crate) fn work_as_crew<R: Threads + Wait + Sync, G: Pause + Sync>(
    rt: &R,
    alloc: Global,
    crew: &Crew<G, Spin, Spin>,
    zero: &mut Me,
    one: &mut Me,
    plan: Plan,
) -> (Result<Vec<Made>, Stop>, Result<Vec<Made>, Stop>)
    requires zero { IsReady crew.now zero.old }
    requires one { IsReady crew.now one.old }
    ensures { IfOk result.1 (λ _. IsPassOf crew.now.table one.new.pass) }
{
    crews_go_to_threads::<G, Spin, Spin>();
    workers_go_to_threads();
    work_both(rt, alloc, crew, zero, one, plan)
}

/// The report of a table, where a worker sees that the root is done.
pub(crate) fn report_of(
    alloc: Global,
    table: CoreTable<Spin>,
    pass: Pass,
) -> Result<Option<Report>, AllocError>
    requires { IsPassOf table pass }
{
    let mut pass = pass;
    if table.root_done(&mut pass) {
        Ok(Some(table.close(alloc, pass)?))
    } else {
        Ok(None)
    }
}

/// The report of a run, and what each of two workers made.
pub(crate) type Ran = (Report, Vec<Made>, Vec<Made>);

/// What two workers of a job make, who call so often each at most, and the report.
fn run_both<R: Threads + Wait + Sync, G: Pause + Sync>(
    rt: &R,
    alloc: Global,
    job: &Job,
    calls: usize,
    pause: &G,
) -> Result<Option<Ran>, AllocError>
    requires { IsSome job.now.shape }
{
    let (crew, mut mes) = Crew::<_, Spin, Spin>::make(alloc, job, 2, pause, &Spin)?;
    let mut one = mes.remove(1);
    let mut zero = mes.remove(0);
    let plan = Plan::Call(calls);
    let (first, second) = work_as_crew(rt, alloc, &crew, &mut zero, &mut one, plan);
    let (Ok(first), Ok(second)) = (first, second) else {
        return Ok(None);
    };
    let Crew {
        table,
        decks: _,
        board: _,
        workers: _,
        pause: _,
        work: _,
    } = crew;
    match report_of(alloc, table, one.pass)? {
        Some(report) => Ok(Some((report, first, second))),
        None => Ok(None),
    }
}

/// The same of the job of a text.
pub(crate) fn run_text<R: Threads + Wait + Sync, G: Pause + Sync>(
    rt: &R,
    alloc: Global,
    text: &[u8],
    calls: usize,
    pause: &G,
) -> Result<Option<Ran>, AllocError>
    requires { length text.now ≤ MOST_JOB_BYTES }
{
    match read_job(alloc, text) {
        Ok(job) if job.shape().is_some() => run_both(rt, alloc, &job, calls, pause),
        _ => Ok(None),
    }
}

/// Twenty-five copies of eight calls, of all objects.
const EIGHT: &[u8] =
    b"pfor 25 { counter add @*3+1 stack push @ tree insert @ stack pop queue insert @ \
tree find @ queue take tree next @ }";

/// Whether each of two workers made a hundred calls, which the report has, and the serial objects reply to them as it
/// says.
fn are_hundreds(alloc: Global, ran: &Ran) -> Result<bool, AllocError> {
    let (report, first, second) = ran;
    let are_own = first.len() == 100
        && second.len() == 100
        && are_of(report, 0, first)
        && are_of(report, 1, second);
    Ok(are_own && replayed(alloc, &report.history)? == Some(200))
}

#[test]
fn two_threads_make_a_hundred_calls_each(rt: HostRuntime) -> Result<(), Fail> {
    let ran = run_text(&rt, rt.alloc(), EIGHT, 100, &NoPause)?.expect(&rt, "a report");
    assert!(rt; are_hundreds(rt.alloc(), &ran)?);
    Ok(())
}
