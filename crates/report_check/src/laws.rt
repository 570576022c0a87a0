//! The laws of flaws, each stated as the contract of a function that does nothing.
ghost use Rattle.std.specs.Prelude.{◌≡◌, ◌≤◌, ℕ, List, None, Option};
ghost use Rattle.limits.specs.declared.TheConstants.{MOST_WORKERS};
ghost use Rattle.sp_order.specs.Jobs.{JobValue, IsJob};
ghost use Rattle.batch_history.specs.Lawful.{Lawful};
ghost use Rattle.batch_history.specs.Text.{report_text};
ghost use Rattle.batch_history.specs.declared.report.Report.{Report};
ghost use Rattle.report_reader.specs.Raw.{IsRaw};
ghost use Rattle.report_check.specs.Flaws.{IsFlawOf};
ghost use Rattle.report_check.specs.SmallJobs.{IsSmallJob};
ghost use Rattle.report_check.specs.declared.flaw.Flaw.{Flaw as FlawOf};

use batch_history::laws::{lawful_reports_name_their_objects, replies_are_small};
use report_reader::laws::texts_have_one_report;

/// A lawful report of at least one worker and no more than the most is raw, and its text has no flaw, where the
/// arguments of the job's acts are below 2^32, as those of each accepted text are.
pub fn lawful_reports_have_no_flaw()
    ensures raw { (job : JobValue) (report : Report) → IsSmallJob job → 1 ≤ report.workers
        → report.workers ≤ MOST_WORKERS → Lawful job report.workers report → IsRaw job report }
    ensures none { (job : JobValue) (report : Report) → IsSmallJob job → 1 ≤ report.workers
        → report.workers ≤ MOST_WORKERS → Lawful job report.workers report
        → IsFlawOf job (report_text job.names report) None }
{
    replies_are_small();
    lawful_reports_name_their_objects();
}

/// A text has one flaw for a job, or none, and not both.
pub fn texts_have_one_flaw()
    ensures { (job : JobValue) (text : List ℕ) (flaw flaw' : Option FlawOf) → IsJob job
        → IsFlawOf job text flaw → IsFlawOf job text flaw' → flaw ≡ flaw' }
{
    texts_have_one_report();
}
