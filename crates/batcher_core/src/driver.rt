//! A whole run by turns on one thread: the workers of a schedule, and then all workers round robin.
ghost use Rattle.std.specs.Prelude.{◌≡◌, ◌<◌, ◌+◌, ◌%◌, false, true, [], IfOk};
ghost use Rattle.std.specs.List.{AllByRecursion};
ghost use Rattle.sp_order.specs.Jobs.{job_tree};
ghost use Rattle.sp_order.specs.Precedence.{leaves};
ghost use Rattle.batch_history.specs.Lawful.{Lawful, LawfulWith};
ghost use Rattle.core_model.specs.State.{CoreState};
ghost use Rattle.core_model.specs.Runs.{IsTurn, Drives};
ghost use Rattle.batcher_core.specs.Cores.{job_in, job_in_with, state_in, is_over_in};
ghost use Rattle.core_model.specs.Reports.{IsDrivenFrom, IsRunFrom};

use crate::scheduler::{Core, CoreWith};
use batch_history::Report;
use core_model::laws::report::driven_report_is_of_a_run;
use leaf_work::{BrandedWork, LeafWork, Spin, WorkBrand};
use sp_order::laws::plan_stands_for_tree;
use std::alloc::{AllocError, Global};

/// One turn of a worker of a core that is not over. Work that is due is done within the turn, by `work`. Returns
/// whether the core is over now.
#[inline(always)]
fn take_turn<B: WorkBrand, W: LeafWork>(
    core: &mut CoreWith<B>,
    work: &BrandedWork<'_, B, W>,
    worker: u32,
) -> Result<bool, AllocError>
    requires worker_in { worker < core.old.workers }
    requires goes_on { is_over_in core.old ≡ false }
    ensures job { (core.new.job ≡ core.old.job)
        × (core.new.workers ≡ core.old.workers) }
    ensures turn { IfOk result
        (λ _. IsTurn (job_in_with B.work core.old) (state_in core.old) worker (state_in core.new)) }
    ensures spent { IfOk result (λ _. core.old.spent ≡ false) }
    ensures over { IfOk result (λ over. over ≡ is_over_in core.new) }
{
    if core.is_certainly_idle(worker) {
        return Ok(false);
    }
    core.advance(worker, work)?;
    Ok(core.is_over())
}

/// The next worker in round-robin order.
fn next_worker(worker: u32, workers: u32) -> u32
    requires { worker < workers }
    ensures { result ≡ (worker + 1) % workers }
{
    if worker + 1 == workers { 0 } else { worker + 1 }
}

/// Takes the turns of a schedule until it ends or the core is over.
fn run_schedule<B: WorkBrand, W: LeafWork>(
    core: &mut CoreWith<B>,
    work: &BrandedWork<'_, B, W>,
    schedule: &[u32],
) -> Result<(), AllocError>
    requires among { AllByRecursion (λ worker. worker < core.old.workers) schedule.now }
    ensures job { IfOk result (λ _. (core.new.job ≡ core.old.job)
        × (core.new.workers ≡ core.old.workers)) }
    ensures drives { IfOk result (λ _. (last : CoreState)
        → Drives (job_in_with B.work core.old) (state_in core.new) [] 0 last
        → Drives (job_in_with B.work core.old) (state_in core.old) schedule.now 0 last) }
    ensures spent { IfOk result (λ _. core.new.spent ≡ false → core.old.spent ≡ false) }
{
    for worker in schedule {
        if core.is_over() {
            return Ok(());
        }
        take_turn(core, work, *worker)?;
    }
    Ok(())
}

/// Takes turns by all workers round robin, from worker 0 on, until the core is over.
fn run_round_robin<B: WorkBrand, W: LeafWork>(
    core: &mut CoreWith<B>,
    work: &BrandedWork<'_, B, W>,
) -> Result<(), AllocError>
    ensures job { IfOk result (λ _. (core.new.job ≡ core.old.job)
        × (core.new.workers ≡ core.old.workers)) }
    ensures drives { IfOk result
        (λ _. Drives (job_in_with B.work core.old) (state_in core.old) [] 0 (state_in core.new)) }
    ensures over { IfOk result (λ _. is_over_in core.new ≡ true) }
    ensures spent { IfOk result (λ _. core.old.spent ≡ false) }
{
    plan_stands_for_tree();
    let workers = core.workers();
    let mut worker = 0;
    let mut over = core.is_over();
    while !over {
        core.invariant_holds();
        over = take_turn(core, work, worker)?;
        worker = next_worker(worker, workers);
    }
    Ok(())
}

/// Takes the turns of a schedule, and then turns round robin, until the core is over.
fn run<B: WorkBrand, W: LeafWork>(
    core: &mut CoreWith<B>,
    work: &BrandedWork<'_, B, W>,
    schedule: &[u32],
) -> Result<(), AllocError>
    requires among { AllByRecursion (λ worker. worker < core.old.workers) schedule.now }
    ensures job { IfOk result (λ _. (core.new.job ≡ core.old.job)
        × (core.new.workers ≡ core.old.workers)) }
    ensures drives { IfOk result
        (λ _. Drives (job_in_with B.work core.old) (state_in core.old) schedule.now 0 (state_in core.new)) }
    ensures over { IfOk result (λ _. is_over_in core.new ≡ true) }
    ensures spent { IfOk result (λ _. core.old.spent ≡ false) }
{
    run_schedule(core, work, schedule)?;
    run_round_robin(core, work)
}

/// Takes turns until the core is over: first by the workers of the schedule, then by all workers round robin from
/// worker 0 on. Each leaf of work runs `work`. Termination: each event lowers the measure, and until the core is over
/// some worker has an event. A spent core gives an `Err`.
pub fn drive_with<B: WorkBrand, W: LeafWork>(
    alloc: Global,
    core: CoreWith<B>,
    work: &W,
    schedule: &[u32],
) -> Result<Report, AllocError>
    requires meaning { W.meaning work.now ≡ B.work }
    requires among { AllByRecursion (λ worker. worker < core.workers) schedule.now }
    ensures driven { IfOk result
        (λ report. IsDrivenFrom (job_in_with B.work core) (leaves (job_tree core.job)) (state_in core)
        schedule.now report) }
    ensures run { IfOk result
        (IsRunFrom (job_in_with B.work core) (leaves (job_tree core.job)) (state_in core)) }
    ensures lawful { IfOk result (λ report. LawfulWith B.work core.job core.workers report) }
    ensures spent { IfOk result (λ _. core.spent ≡ false) }
{
    driven_report_is_of_a_run();
    let mut core = core;
    run(&mut core, &BrandedWork::of(work), schedule)?;
    core.report(alloc)
}

/// Takes turns until the core is over, as `drive_with` does, where each leaf of work spins.
pub fn drive(alloc: Global, core: Core, schedule: &[u32]) -> Result<Report, AllocError>
    requires { AllByRecursion (λ worker. worker < core.workers) schedule.now }
    ensures driven { IfOk result
        (λ report. IsDrivenFrom (job_in core) (leaves (job_tree core.job)) (state_in core)
        schedule.now report) }
    ensures run { IfOk result (IsRunFrom (job_in core) (leaves (job_tree core.job)) (state_in core)) }
    ensures lawful { IfOk result
        (λ report. Lawful core.job
        core.workers report) }
    ensures spent { IfOk result (λ _. core.spent ≡ false) }
{
    drive_with(alloc, core, &Spin, schedule)
}
