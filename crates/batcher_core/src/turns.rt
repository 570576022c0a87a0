//! A whole run by turns of a job whose leaves of work run a function of the caller's.
ghost use Rattle.std.specs.Prelude.{◌≡◌, ◌<◌, ◌≤◌, IfOk, IsSome};
ghost use Rattle.std.specs.List.{AllByRecursion};
ghost use Rattle.limits.specs.declared.TheConstants.{MOST_WORKERS};
ghost use Rattle.batch_history.specs.Lawful.{LawfulWith};
ghost use Rattle.core_model.specs.Reports.{IsDrivenReportWith, IsRunReportWith};

use crate::driver::drive_with;
use crate::scheduler::CoreWith;
use batch_history::Report;
use core_model::laws::report::driven_report_is_of_a_run;
use core_model::report_of_empty;
use leaf_work::{LeafWork, WorkBrand};
use sp_order::Job;
use std::alloc::{AllocError, Global};
use std::marker::Brand;

/// Makes the core of a job with leaves, and takes its turns. `B` names what the leaves of work compute.
fn start_and_drive<B: WorkBrand, W: LeafWork>(
    alloc: Global,
    job: &Job,
    workers: u32,
    work: &W,
    schedule: &[u32],
) -> Result<Report, AllocError>
    requires meaning { W.meaning work.now ≡ B.work }
    requires leaves { IsSome job.now.shape }
    requires some_workers { 0 < workers }
    requires few_workers { workers ≤ MOST_WORKERS }
    requires schedule { AllByRecursion (λ worker. worker < workers) schedule.now }
    ensures driven { IfOk result (λ report. IsDrivenReportWith B.work job.now workers schedule.now report) }
    ensures run { IfOk result (IsRunReportWith B.work job.now workers) }
    ensures lawful { IfOk result (λ report. LawfulWith B.work job.now workers report) }
{
    driven_report_is_of_a_run();
    let core = CoreWith::<B>::start(alloc, job, workers)?;
    drive_with(alloc, core, work, schedule)
}

/// Runs a job on one thread, where each leaf of work runs `work`: the workers take turns on the scheduler's core, first
/// those of the schedule, and then all round robin from worker 0 on.
pub fn run_by_turns_with<W: LeafWork>(
    alloc: Global,
    job: &Job,
    workers: u32,
    work: &W,
    schedule: &[u32],
) -> Result<Report, AllocError>
    requires some_workers { 0 < workers }
    requires few_workers { workers ≤ MOST_WORKERS }
    requires schedule { AllByRecursion (λ worker. worker < workers) schedule.now }
    ensures driven { IfOk result
        (λ report. IsDrivenReportWith (W.meaning work.now) job.now workers schedule.now report) }
    ensures run { IfOk result (IsRunReportWith (W.meaning work.now) job.now workers) }
    ensures lawful { IfOk result (λ report. LawfulWith (W.meaning work.now) job.now workers report) }
{
    if let Some(report) = report_of_empty(alloc, job, workers) {
        return Ok(report);
    }
    start_and_drive::<Brand, W>(alloc, job, workers, work, schedule)
}
