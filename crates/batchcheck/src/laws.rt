//! The laws of flaws of accepted jobs, each stated as the contract of a function that does nothing.
ghost use Rattle.std.specs.Prelude.{◌≡◌, ℕ, List, None, Option};
ghost use Rattle.sp_order.specs.Jobs.{JobValue};
ghost use Rattle.job_lang.specs.Language.{IsJobOf};
ghost use Rattle.report_check.specs.Flaws.{IsFlawOf};
ghost use Rattle.report_check.specs.declared.flaw.Flaw.{Flaw as FlawOf};
ghost use Rattle.batchcheck.specs.Outcomes.{HasLawfulReport};

use job_lang::laws::{accepted_jobs_are_jobs, accepted_jobs_have_small_arguments};
use report_check::laws::{lawful_reports_have_no_flaw, texts_have_one_flaw};

/// The text of each lawful report of an accepted job has no flaw, where the report has 1 to `MOST_WORKERS` workers.
pub fn lawful_texts_have_no_flaw()
    ensures { (bytes text : List ℕ) (job : JobValue) → IsJobOf bytes job → HasLawfulReport job text
        → IsFlawOf job text None }
{
    accepted_jobs_are_jobs();
    accepted_jobs_have_small_arguments();
    lawful_reports_have_no_flaw();
}

/// A text has one flaw for an accepted job, or none, and not both.
pub fn accepted_jobs_have_one_flaw()
    ensures { (bytes text : List ℕ) (job : JobValue) (flaw flaw' : Option FlawOf) → IsJobOf bytes job
        → IsFlawOf job text flaw → IsFlawOf job text flaw' → flaw ≡ flaw' }
{
    accepted_jobs_are_jobs();
    texts_have_one_flaw();
}
