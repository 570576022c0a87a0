//! The laws of texts that are written and of generated jobs, each as the contract of a function that does nothing.
ghost use Rattle.std.specs.Prelude.{◌≡◌, ◌≤◌, ◌<◌, ◌+◌, ◌*◌, ◌^◌, ℕ, List, [], ◌∷◌, length, true, Some, None};
ghost use Rattle.std.specs.List.{AllByRecursion};
ghost use Rattle.limits.specs.declared.TheConstants.{MOST_GENERATED};
ghost use Rattle.job_names.specs.Names.{is_spelled};
ghost use Rattle.seq_objects.specs.Objects.{argument_of, number_of};
ghost use Rattle.seq_objects.specs.Words.{op_words};
ghost use Rattle.seq_objects.specs.declared.act.Act.TheVariants.{Call};
ghost use Rattle.seq_objects.specs.declared.op.Op.{Op};
ghost use Rattle.sp_order.specs.Depth.{depth_of};
ghost use Rattle.sp_order.specs.Precedence.{leaf, leaf_count};
ghost use Rattle.sp_order.specs.Objects.{with_number, name_of_number};
ghost use Rattle.sp_order.specs.Phases.{FillsFirst};
ghost use Rattle.sp_order.specs.Sources.{TakeReplies};
ghost use Rattle.sp_order.specs.Totals.{count_of_act};
ghost use Rattle.job_writer.specs.Canonical.{canonical_text};
ghost use Rattle.job_writer.specs.Generator.{generated};
ghost use Rattle.job_lang.specs.ActNumbers.{op_number, IsSmall};
ghost use Rattle.job_lang.specs.Language.{IsJobOf};

/// The words of an operation in a report, if its argument fits 32 bits, are a text of the job with this one call. Where
/// its object has a name, this name is the one of the job.
pub fn reported_words_are_a_job()
    ensures nameless { (names : List (List ℕ)) (op : Op) → number_of op ≡ 0 → IsSmall (op_number op)
        → IsJobOf (op_words names op)
        (record { shape = Some leaf; acts = Call op ∷ []; sources = None ∷ []; names = [] }) }
    ensures named { (names : List (List ℕ)) (op : Op) → 0 < number_of op
        → is_spelled (name_of_number names (number_of op)) ≡ true → IsSmall (op_number op)
        → IsJobOf (op_words names op)
        (record { shape = Some leaf; acts = Call (with_number op 1) ∷ []; sources = None ∷ []; names = name_of_number names (number_of op) ∷ [] }) }
{}

/// A generated job has an act for each of its leaves, of which there are from `size + 2` to `2 * size + 2`.
pub fn generated_jobs_have_few_leaves()
    ensures acts { (seed size : ℕ) → leaf_count (generated seed size).shape ≡ length (generated seed size).acts }
    ensures least { (seed size : ℕ) → size + 2 ≤ leaf_count (generated seed size).shape }
    ensures most { (seed size : ℕ) → leaf_count (generated seed size).shape ≤ 2 * size + 2 }
{}

/// The canonical text of a generated job of size at most `MOST_GENERATED` is a text of this job, with less than 700,000
/// bytes. The job is at most 15 deep, and none of its leaves has a source, so the writer accepts it.
pub fn generated_jobs_have_texts()
    ensures depth { (seed size : ℕ) → size ≤ MOST_GENERATED → depth_of (generated seed size).shape ≤ 15 }
    ensures replies { (seed size : ℕ) → TakeReplies (generated seed size).acts (generated seed size).sources }
    ensures short { (seed size : ℕ) → size ≤ MOST_GENERATED → length (canonical_text (generated seed size)) < 700000 }
    ensures text { (seed size : ℕ) → size ≤ MOST_GENERATED
        → IsJobOf (canonical_text (generated seed size)) (generated seed size) }
{}

/// The arguments of a generated job fit 32 bits.
pub fn generated_jobs_have_small_arguments()
    ensures { (seed size : ℕ)
        → AllByRecursion (λ act. count_of_act argument_of act < 2 ^ 32) (generated seed size).acts }
{}

/// A generated job fills each structure before it queries it.
pub fn generated_jobs_fill_first()
    ensures { (seed size : ℕ) → 1 ≤ size → FillsFirst (generated seed size) }
{}
