//! The laws of the job language, each as the contract of a function that does nothing.
ghost use Rattle.std.specs.Prelude.{◌≡◌, ◌<◌, ◌^◌, ◌⊎◌, ℕ, List, map, is_some};
ghost use Rattle.std.specs.List.{AllByRecursion};
ghost use Rattle.seq_objects.specs.Objects.{argument_of};
ghost use Rattle.sp_order.specs.Jobs.{JobValue, IsJob};
ghost use Rattle.sp_order.specs.Objects.{with_numbers};
ghost use Rattle.sp_order.specs.Sources.{TakeReplies};
ghost use Rattle.sp_order.specs.Totals.{count_of_act};
ghost use Rattle.job_lang.specs.Meaning.{objects_in};
ghost use Rattle.job_lang.specs.Objects.{object_called, numbers_of};
ghost use Rattle.job_lang.specs.Uses.{uses_in};
ghost use Rattle.job_lang.specs.ActNumbers.{AreSmall};
ghost use Rattle.job_lang.specs.Language.{IsJobOf, Accepts, IsFaultOf};
ghost use Rattle.job_lang.specs.Places.{act_at, placed_leaves, HaveTheirLets};
ghost use Rattle.job_syntax.specs.Faults.{words_of};
ghost use Rattle.job_syntax.specs.Words.{words_on_lines};
ghost use Rattle.job_syntax.specs.declared.fault.JobFault.{JobFault};

/// Each text has one job or one fault, and not both.
pub fn texts_have_one_job_or_fault()
    ensures one_job { (text : List ℕ) (job job' : JobValue)
        → IsJobOf text job → IsJobOf text job' → job ≡ job' }
    ensures one_fault { (text : List ℕ) (fault fault' : JobFault)
        → IsFaultOf text fault → IsFaultOf text fault' → fault ≡ fault' }
    ensures not_both { (text : List ℕ) (job : JobValue) (fault : JobFault)
        → IsJobOf text job → IsFaultOf text fault → ⊥ }
    ensures either { (text : List ℕ) → Accepts text ⊎ ((fault : JobFault) × IsFaultOf text fault) }
{}

/// The job of an accepted text is one: its acts are as many as its leaves, each source is one that its leaf may have, and
/// its objects have the numbers and names of a job.
pub fn accepted_jobs_are_jobs()
    ensures { (text : List ℕ) (job : JobValue) → IsJobOf text job → IsJob job }
{}

/// The leaves of the job of an accepted text take replies alone: a leaf with a source calls, and so does the source.
pub fn accepted_jobs_take_replies()
    ensures { (text : List ℕ) (job : JobValue) → IsJobOf text job → TakeReplies job.acts job.sources }
{}

/// The leaves of an accepted text that use a name are those that have a source.
pub fn uses_have_sources()
    ensures { (text : List ℕ) (job : JobValue) (is : IsJobOf text job) → map is_some job.sources ≡ uses_in is.items }
{}

/// The source of a leaf is the leaf of the last `let` of its name that the use sees in the text, in the same copy of each
/// loop that holds both; a leaf that uses no name has none. The leaves that have places in the text are those of the job,
/// in their order.
pub fn uses_mean_the_last_let_that_they_see()
    ensures sources { (text : List ℕ) (job : JobValue) (is : IsJobOf text job)
        → HaveTheirLets (words_of (words_on_lines text)) (placed_leaves is.items) job.sources }
    ensures leaves { (text : List ℕ) (job : JobValue) (is : IsJobOf text job)
        → job.acts ≡ with_numbers (map act_at (placed_leaves is.items)) (numbers_of (objects_in is.items)) }
{}

/// The objects with names that the leaves of an accepted text name are those that the acts of its job call.
pub fn leaves_call_the_objects_they_name()
    ensures { (text : List ℕ) (job : JobValue) (is : IsJobOf text job)
        → map (λ act. object_called job.names act) job.acts ≡ objects_in is.items }
{}

/// The numbers of an accepted job fit 32 bits: the steps of its work, and the arguments of its calls.
pub fn accepted_jobs_have_small_arguments()
    ensures numbers { (text : List ℕ) (job : JobValue) → IsJobOf text job → AreSmall job.acts }
    ensures arguments { (text : List ℕ) (job : JobValue) → IsJobOf text job
        → AllByRecursion (λ act. count_of_act argument_of act < 2 ^ 32) job.acts }
{}
