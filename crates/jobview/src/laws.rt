//! The law of what is shown of a job, stated as the contract of a function that does nothing.
ghost use Rattle.std.specs.Prelude.{◌≡◌, ℕ, List};
ghost use Rattle.jobview.specs.Outcomes.{Shows};
ghost use Rattle.jobview.specs.declared.words.Form.{Form as FormOf};

use job_lang::laws::texts_have_one_job_or_fault;
use leaf_places::laws::texts_have_one_list_of_rows;

/// Of a text one thing at most is shown in each form.
pub fn texts_have_one_view()
    ensures { (form : FormOf) (bytes shown shown' : List ℕ)
        → Shows form bytes shown → Shows form bytes shown' → shown ≡ shown' }
{
    texts_have_one_job_or_fault();
    texts_have_one_list_of_rows();
}
