//! The report of a job without leaves, which needs no run.
ghost use Rattle.std.specs.Prelude.{ℕ, List, IfSome, IsNone, IsSome};
ghost use Rattle.batch_history.specs.Lawful.{Lawful, LawfulWith};
ghost use Rattle.core_model.specs.Reports.{IsDrivenReport, IsDrivenReportWith, IsRunReport, IsRunReportWith};

use batch_history::{History, Report, Rows};
use sp_order::Job;
use std::alloc::Global;

/// The report of a job without leaves, which is the same whatever leaves of work compute. `None` for any other job:
/// that must be run.
pub fn report_of_empty(alloc: Global, job: &Job, workers: u32) -> Option<Report>
    ensures lawful { IfSome result (λ report. Lawful job.now workers report) }
    ensures run { IfSome result (IsRunReport job.now workers) }
    ensures driven { (schedule : List ℕ) → IfSome result (IsDrivenReport job.now workers schedule) }
    ensures lawful_with { (work : ℕ → ℕ) → IfSome result (λ report. LawfulWith work job.now workers report) }
    ensures run_with { (work : ℕ → ℕ) → IfSome result (IsRunReportWith work job.now workers) }
    ensures driven_with { (work : ℕ → ℕ) (schedule : List ℕ)
        → IfSome result (IsDrivenReportWith work job.now workers schedule) }
    ensures leaves { IsNone result → IsSome job.now.shape }
{
    if job.shape().is_some() {
        return None;
    }
    Some(Report {
        workers,
        history: History::new(alloc),
        rows: Rows::of(Vec::new(alloc)),
    })
}
