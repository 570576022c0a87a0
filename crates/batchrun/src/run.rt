//! The run of a job by turns on one thread.
ghost use Rattle.std.specs.Prelude.{◌<◌, ◌≤◌, IfOk};
ghost use Rattle.std.specs.List.{AllByRecursion};
ghost use Rattle.limits.specs.declared.TheConstants.{MOST_WORKERS};
ghost use Rattle.batch_history.specs.Lawful.{Lawful};
ghost use Rattle.core_model.specs.Reports.{IsDrivenReport, IsRunReport};

use batch_history::Report;
use batcher_core::{Core, drive};
use core_model::laws::report::driven_report_is_of_a_run;
use core_model::report_of_empty;
use sp_order::Job;
use std::alloc::{AllocError, Global};

/// Runs a job on one thread: the workers take turns on the scheduler's core, first those of the schedule, and then all
/// round robin from worker 0 on.
pub fn run_by_turns(
    alloc: Global,
    job: &Job,
    workers: u32,
    schedule: &[u32],
) -> Result<Report, AllocError>
    requires some_workers { 0 < workers }
    requires few_workers { workers ≤ MOST_WORKERS }
    requires schedule { AllByRecursion (λ worker. worker < workers) schedule.now }
    ensures driven { IfOk result (λ report. IsDrivenReport job.now workers schedule.now report) }
    ensures run { IfOk result (IsRunReport job.now workers) }
    ensures lawful { IfOk result (λ report. Lawful job.now workers report) }
{
    driven_report_is_of_a_run();
    if let Some(report) = report_of_empty(alloc, job, workers) {
        return Ok(report);
    }
    let core = Core::start(alloc, job, workers)?;
    drive(alloc, core, schedule)
}
