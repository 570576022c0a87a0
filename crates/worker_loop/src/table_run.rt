//! A run in threads over the running table.
ghost use Rattle.std.specs.Prelude.{◌≡◌, ◌<◌, ◌≤◌, ℕ, true, Some, IsSome, IfOk, length, slice_index_or};
ghost use Rattle.limits.specs.declared.TheConstants.{MOST_WORKERS};
ghost use Rattle.batch_history.specs.Lawful.{Lawful, LawfulWith};
ghost use Rattle.core_table.specs.declared.table.Pass.{Pass as PassOf};
ghost use Rattle.core_table.specs.Passes.{planned_in, job_in, view, IsPassOf, IsMissOf};
ghost use Rattle.table_rule.specs.declared.view.Miss.{Miss};
ghost use Rattle.table_rule.specs.Passes.{finding_none};
ghost use Rattle.table_rule.specs.Views.{with_miss, seeing_done};
ghost use Rattle.table_rule.specs.Words.{stop_at};
ghost use Rattle.core_model.specs.Reports.{IsRunReport, IsRunReportWith};
ghost use Rattle.worker_crew.specs.declared.crew.Me.{Me as MeOf};
ghost use Rattle.worker_crew.specs.Workers.{IsReady};
ghost use Rattle.worker_crew.specs.Opening.{HaveRooms, AreAtStart};
ghost use Rattle.worker_loop.specs.Ends.{HasEnded};

mod deques;

use self::deques::{drop_decks, make_decks};
use crate::{Crew, Me};
use batch_history::Report;
use core_model::report_of_empty;
use core_table::{CoreTable, Pass};
use leaf_work::{LeafWork, Spin, WorkBrand};
use run_points::{NoPause, Pause, wait_for_others};
use sp_order::Job;
use std::alloc::{AllocError, Global};
use std::marker::Brand;
use std::sync::Wait;
use std::sync::atomic::AtomicU64;
use std::thread;
use std::thread::Threads;
use worker_crew::deck_rooms;
use worker_crew::sending::{crews_go_to_threads, workers_go_to_threads};
use worker_turns::work;

/// The crew of a job that has leaves, and its workers, as `Crew::make` makes them, but with each worker's deques made
/// in a thread of its own where one can be started.
fn make_crew<'a, R: Threads + Sync, G: Pause, B: WorkBrand, W: LeafWork>(
    rt: &R,
    alloc: Global,
    job: &Job,
    workers: u32,
    pause: &'a G,
    work: &'a W,
) -> Result<(Crew<'a, G, B, W>, Vec<Me>), AllocError>
    requires meaning { W.meaning work.now ≡ B.work }
    requires leaves { IsSome job.now.shape }
    requires workers { (0 < workers) × (workers ≤ MOST_WORKERS) }
    ensures job { IfOk result (λ made. (planned_in made.0.table ≡ job.now)
        × ((job_in made.0.table).workers ≡ workers)) }
    ensures workers { IfOk result (λ made. made.0.workers ≡ workers) }
    ensures rooms { IfOk result (λ made. HaveRooms made.0.table made.0.decks) }
    ensures start { IfOk result (λ made. AreAtStart made.0 made.1.items) }
{
    let (table, passes) = CoreTable::<B>::make(alloc, job, workers)?;
    let rooms = deck_rooms(&table);
    let (decks, hands) = make_decks(rt, alloc, workers, rooms)?;
    Crew::of(alloc, workers, table, passes, decks, hands, pause, work)
}

/// What the threads of a run over the running table share. The threads are started over any `Sync` team, so that `Sync`
/// of a crew is shown only once.
trait SharedRun {
    /// The worker is ready to start.
    ghost ready: { Self → MeOf → Type 0 };

    /// The pass belongs to the team's table.
    ghost gave: { Self → PassOf → Type 0 };

    /// Runs the worker until the run has ended for it, and returns its pass.
    fn work<R: Wait>(&self, rt: &R, alloc: Global, me: Me) -> Pass
        requires { ready self.now me }
        ensures gave { gave self.now result }
        ensures ended { HasEnded result };
}

impl<'a, G: Pause, B: WorkBrand, W: LeafWork> SharedRun for Crew<'a, G, B, W> {
    ghost ready = { λ crew me. IsReady crew me };

    ghost gave = { λ crew pass. IsPassOf crew.table pass };

    fn work<R: Wait>(&self, rt: &R, alloc: Global, me: Me) -> Pass {
        work(rt, alloc, self, me)
    }
}

/// Runs each worker after the start barrier, in a thread of its own where one can be spawned, and joins all threads.
/// Each worker returns its pass.
fn work_in_threads<C: SharedRun + Sync, R: Threads + Wait + Sync>(
    rt: &R,
    alloc: Global,
    team: &C,
    workers: u32,
    mes: Vec<Me>,
) -> Result<Vec<Pass>, AllocError>
    requires ready { (w : ℕ) (me : MeOf) → w < length mes.items
        → me ≡ slice_index_or mes.items w me → C.ready team.now me }
    ensures count { IfOk result (λ passes. length passes.items ≡ length mes.items) }
    ensures passes { IfOk result (λ passes. (w : ℕ) (pass : PassOf) → w < length passes.items
        → pass ≡ slice_index_or passes.items w pass → C.gave team.now pass × HasEnded pass) }
{
    workers_go_to_threads();
    let arrived = AtomicU64::new(0);
    let all = &arrived;
    thread::map_vec(
        rt,
        mes,
        &|me: Me| -> Pass
            requires { C.ready team.now me }
            ensures { C.gave team.entry.now result × HasEnded result }
        {
            wait_for_others(all, workers);
            team.work(rt, alloc, me)
        },
    )
}

/// Runs the workers of a crew, each until it has seen the root done, or knows that the stop word is set.
fn work_as_crew<
    R: Threads + Wait + Sync,
    G: Pause + Sync,
    B: WorkBrand + Send + Sync,
    W: LeafWork + Sync,
>(rt: &R, alloc: Global, crew: &Crew<G, B, W>, mes: Vec<Me>) -> Result<Vec<Pass>, AllocError>
    requires start { AreAtStart crew.now mes.items }
    ensures count { IfOk result (λ passes. length passes.items ≡ crew.now.workers) }
    ensures passes { IfOk result (λ passes. (w : ℕ) (pass : PassOf) → w < length passes.items
        → pass ≡ slice_index_or passes.items w pass → IsPassOf crew.now.table pass × HasEnded pass) }
{
    crews_go_to_threads::<G, B, W>();
    work_in_threads(rt, alloc, crew, crew.workers, mes)
}

/// Whether the run came to its end: no worker has set the stop word, and the root is done. The looks are recorded in
/// the pass.
fn has_ended<B: WorkBrand>(table: &CoreTable<B>, pass: &mut Pass) -> bool
    requires pass { IsPassOf table.now pass.old }
    ensures pass { IsPassOf table.now pass.new }
    ensures ended { result ≡ true → (miss : Miss)
        × ((miss.found ≡ 0) × IsMissOf B.work table.now pass.old (stop_at (job_in table.now).workers) miss)
        × (view pass.new ≡ seeing_done (with_miss miss finding_none (view pass.old))) }
{
    !table.stopped(pass) && table.root_done(pass)
}

/// The report of a run that came to its end. The answer is an error where a worker has set the stop word, because
/// memory ran out there, or where the root is not done, or where memory runs out here.
fn close<B: WorkBrand>(alloc: Global, table: CoreTable<B>, pass: Pass) -> Result<Report, AllocError>
    requires pass { IsPassOf table pass }
    ensures lawful { IfOk result (λ report. LawfulWith B.work (planned_in table)
        (job_in table).workers report) }
    ensures run { IfOk result (IsRunReportWith B.work (planned_in table) (job_in table).workers) }
{
    let mut pass = pass;
    if !has_ended(&table, &mut pass) {
        return Err(AllocError);
    }
    table.close(alloc, pass)
}

/// Runs a job in threads, and joins them all. `B` names what the leaves of work compute.
fn run_crew<
    R: Threads + Wait + Sync,
    G: Pause + Sync,
    B: WorkBrand + Send + Sync,
    W: LeafWork + Sync,
>(rt: &R, alloc: Global, job: &Job, workers: u32, pause: &G, work: &W) -> Result<Report, AllocError>
    requires meaning { W.meaning work.now ≡ B.work }
    requires some_workers { 0 < workers }
    requires few_workers { workers ≤ MOST_WORKERS }
    ensures lawful { IfOk result (λ report. LawfulWith B.work job.now workers report) }
    ensures run { IfOk result (IsRunReportWith B.work job.now workers) }
{
    if let Some(report) = report_of_empty(alloc, job, workers) {
        return Ok(report);
    }
    let (crew, mes) = make_crew::<R, G, B, W>(rt, alloc, job, workers, pause, work)?;
    let mut passes = work_as_crew(rt, alloc, &crew, mes)?;
    let Crew {
        table,
        decks,
        board: _,
        workers: _,
        pause: _,
        work: _,
    } = crew;
    drop_decks(rt, alloc, decks);
    close(alloc, table, passes.remove(0))
}

/// Runs a job in threads, one for each worker, over the running table. A worker takes nodes and pieces from its own
/// deques and steals from those of the others. Calls become batches, and a worker that waits for its call helps with
/// the pieces. No step takes a lock. Where a thread cannot be spawned, the caller does its work. All threads are joined
/// before this returns, also where memory ran out: the worker that ran out sets the stop word, and the run then returns
/// an error. Each worker's deques are made by a thread of its own before the workers begin, and dropped by one after
/// they end.
///
/// `pause` is called where a worker has started a leaf, where it has posted a call, where it has won the flag, and
/// where it is about to run a piece.
pub fn run_table<R: Threads + Wait + Sync, G: Pause + Sync>(
    rt: &R,
    alloc: Global,
    job: &Job,
    workers: u32,
    pause: &G,
) -> Result<Report, AllocError>
    requires some_workers { 0 < workers }
    requires few_workers { workers ≤ MOST_WORKERS }
    ensures lawful { IfOk result (λ report. Lawful job.now workers report) }
    ensures run { IfOk result (IsRunReport job.now workers) }
{
    run_crew::<R, G, Spin, Spin>(rt, alloc, job, workers, pause, &Spin)
}

/// Runs a job in threads, where each leaf of work runs `work`: one thread for each worker, over the running table, as
/// `run_table` runs a job whose leaves spin. Where memory runs out in a leaf, the run returns an error.
pub fn run_table_with<R: Threads + Wait + Sync, W: LeafWork + Sync>(
    rt: &R,
    alloc: Global,
    job: &Job,
    workers: u32,
    work: &W,
) -> Result<Report, AllocError>
    requires some_workers { 0 < workers }
    requires few_workers { workers ≤ MOST_WORKERS }
    ensures lawful { IfOk result (λ report. LawfulWith (W.meaning work.now) job.now workers report) }
    ensures run { IfOk result (IsRunReportWith (W.meaning work.now) job.now workers) }
{
    run_crew::<R, NoPause, Brand, W>(rt, alloc, job, workers, &NoPause, work)
}
