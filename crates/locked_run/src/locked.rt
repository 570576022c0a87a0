//! The run: the workers in threads, joined, and the report.
ghost use Rattle.std.specs.Prelude.{◌≡◌, ◌*◌, ◌<◌, ◌≤◌, Some, IfOk, false};
ghost use Rattle.limits.specs.declared.TheConstants.{MOST_LEAVES, MOST_WORKERS};
ghost use Rattle.batch_history.specs.Lawful.{Lawful};
ghost use Rattle.core_model.specs.Reports.{IsRunReport};
ghost use Rattle.core_model.specs.State.{opening_core};
ghost use Rattle.batcher_core.specs.Cores.{state_in};
ghost use Rattle.locked_run.specs.Runs.{IsCoreOf};

use crate::run::{JobBrand, LockedRun, Run};
use crate::sending::cores_are_sent;
use crate::worker::{Shared, work};
use batch_history::Report;
use batcher_core::Core;
use core_model::report_of_empty;
use run_points::Pause;
use sp_order::{Job, Plan};
use std::alloc::{AllocError, Global};
use std::marker::Brand;
use std::sync::atomic::AtomicU64;
use std::sync::{Mutex, Wait};
use std::thread;
use std::thread::Threads;
use two_deques::{Decks, Hand};

/// Runs the workers in threads, joins them, and gives the report. What they left undone is finished on the caller's
/// thread.
fn run_in_threads<S: LockedRun + Send, R: Threads + Wait + Sync, G: Pause + Sync>(
    rt: &R,
    alloc: Global,
    run: S,
    workers: u32,
    room: u32,
    pause: &G,
) -> Result<Report, AllocError>
    requires workers { (workers ≡ S.workers) × (0 < workers) × (workers ≤ MOST_WORKERS) }
    requires room { room ≤ 2 * MOST_LEAVES }
    ensures lawful { IfOk result (λ report. Lawful S.job S.workers report) }
    ensures run { IfOk result (IsRunReport S.job S.workers) }
{
    let (decks, hands) = Decks::make(alloc, workers, room, 0)?;
    let shared = Shared {
        run: Mutex::new(run),
        decks,
        arrived: AtomicU64::new(0),
        workers,
        pause,
    };
    let all = &shared;
    thread::map_vec(
        rt,
        hands,
        &|hand: Hand| {
            work(rt, all, hand);
        },
    )?;
    let Shared {
        run,
        decks: _,
        arrived: _,
        workers: _,
        pause: _,
    } = shared;
    run.into_inner().report(alloc)
}

/// Runs a core at its opening state in as many threads as it has workers. `J` names its job.
fn run_core<J: JobBrand + Send + Sync, R: Threads + Wait + Sync, G: Pause + Sync>(
    rt: &R,
    alloc: Global,
    core: Core,
    room: u32,
    pause: &G,
) -> Result<Report, AllocError>
    requires job { IsCoreOf J.job J.workers core }
    requires unspent { core.spent ≡ false }
    requires opening { state_in core ≡ opening_core }
    requires few_workers { J.workers ≤ MOST_WORKERS }
    requires room { room ≤ 2 * MOST_LEAVES }
    ensures lawful { IfOk result (λ report. Lawful J.job J.workers report) }
    ensures run { IfOk result (IsRunReport J.job J.workers) }
{
    cores_are_sent();
    let workers = core.workers();
    let run = Run::<J>::new(core);
    run_in_threads::<Run<J>, R, G>(rt, alloc, run, workers, room, pause)
}

/// Runs a job in threads, one for each worker, that take turns on the scheduler's core under one lock. Where a thread
/// cannot be spawned, the caller does its work. All threads are joined before this returns, also where memory ran out.
/// Unless memory ran out, what the workers left undone is finished on the caller's thread.
///
/// `pause` is called outside the lock: where a worker has started a leaf, and where it has posted a call.
pub fn run_locked<R: Threads + Wait + Sync, G: Pause + Sync>(
    rt: &R,
    alloc: Global,
    job: &Job,
    workers: u32,
    pause: &G,
) -> Result<Report, AllocError>
    requires some_workers { 0 < workers }
    requires few_workers { workers ≤ MOST_WORKERS }
    ensures lawful { IfOk result (λ report. Lawful job.now workers report) }
    ensures run { IfOk result (IsRunReport job.now workers) }
{
    if let Some(report) = report_of_empty(alloc, job, workers) {
        return Ok(report);
    }
    let core = Core::start(alloc, job, workers)?;
    let room = Plan::of(alloc, job)?.nodes();
    run_core::<Brand, R, G>(rt, alloc, core, room, pause)
}
