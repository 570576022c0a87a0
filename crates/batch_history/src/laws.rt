//! The laws of operations, summaries, replies and names: each is the contract of a function that does nothing. They
//! say that a longer book keeps the operations of leaves, bound the replies of a run, name the objects of its calls,
//! and fix what its calls add up to, independently of the schedule. A clause on `entries` assumes only the legality or
//! the order that it names; a clause on a `report` assumes that the report is lawful. Where it relates the calls to
//! the job's acts, it also assumes that no leaf has a source, and where it relates replies to arguments, that no
//! object has a name. `FillsFirst` includes both; the bound of the replies holds with sources and names too.
ghost use Rattle.std.specs.Prelude.{◌≡◌, ◌≢◌, ℕ, ◌-◌, ◌≤◌, ◌<◌, ◌^◌, ◌↔◌, true, List, [], ◌∷◌, ◌++◌, length, None, Option, Some, Contains};
ghost use Rattle.std.specs.List.{AllByRecursion};
ghost use Rattle.limits.specs.declared.TheConstants.{MOST_LEAVES};
ghost use Rattle.seq_objects.specs.Objects.{has, argument_of, value_of};
ghost use Rattle.seq_objects.specs.Stores.{opening_store};
ghost use Rattle.seq_objects.specs.Orders.{StrictlyAscends};
ghost use Rattle.seq_objects.specs.declared.act.Act.{Act};
ghost use Rattle.seq_objects.specs.declared.act.Act.TheVariants.{Call};
ghost use Rattle.seq_objects.specs.declared.op.Op.{Op};
ghost use Rattle.seq_objects.specs.declared.op.Op.TheVariants.{TreeInsert};
ghost use Rattle.sp_order.specs.Jobs.{JobValue, IsJob};
ghost use Rattle.sp_order.specs.Objects.{AreUnnamed};
ghost use Rattle.sp_order.specs.Totals.{added, pushes, pushed, pops, queue_inserts, queue_inserted, queue_takes, tree_inserts, tree_removes, tree_finds, finds_in, keys_inserted, count_of_act, total};
ghost use Rattle.sp_order.specs.Phases.{ComesBefore, HasNoSources, FillsFirst};
ghost use Rattle.batch_history.specs.declared.batch.Entry.{Entry};
ghost use Rattle.batch_history.specs.declared.report.Report.{Report};
ghost use Rattle.batch_history.specs.Book.{flat, IsLegalFrom};
ghost use Rattle.batch_history.specs.Operations.{op_from, value_from};
ghost use Rattle.batch_history.specs.Serving.{served, served_book, acts_in};
ghost use Rattle.batch_history.specs.Lawful.{Lawful};
ghost use Rattle.batch_history.specs.Filling.{StandsBefore, FindsIn};
ghost use Rattle.batch_history.specs.Text.{HaveNames};
ghost use Rattle.batch_history.specs.Tally.{last_sum, over_replies, popped, queue_taken, new_keys, keys_found, tally_of, tally_of_acts};
ghost use Rattle.batch_history.specs.Summary.{CanBeSummed, summary_of_report, summary_of_job};

use sp_order::object_laws::{arguments_keep_objects, named_numbers_are_by_first_use};

/// In a job without sources, for every count of operations, a lawful report's calls have the same total as the job's
/// acts, and they insert the same keys. If all leaves with `early` calls precede all leaves with `late` calls in the
/// job, the calls are in that order in the report. With sources the calls' arguments are not those of the acts.
pub fn calls_are_the_jobs()
    ensures totals { (job : JobValue) (workers : ℕ) (report : Report) → Lawful job workers report
        → HasNoSources job → (count : Op → ℕ) → total count (acts_in (flat report.history)) ≡ total count job.acts }
    ensures keys { (job : JobValue) (workers : ℕ) (report : Report) → Lawful job workers report
        → HasNoSources job → keys_inserted (acts_in (flat report.history)) ≡ keys_inserted job.acts }
    ensures order { (job : JobValue) (workers : ℕ) (report : Report) → Lawful job workers report
        → HasNoSources job → (early late : Op → ℕ) → ComesBefore job early late
        → StandsBefore early late (flat report.history) }
{}

/// Without names, the last counter add replies the sum of all addends.
pub fn last_add_replies_the_sum()
    ensures entries { (entries : List Entry) → AreUnnamed (acts_in entries) → IsLegalFrom opening_store entries
        → last_sum 0 entries ≡ total added (acts_in entries) }
    ensures report { (job : JobValue) (workers : ℕ) (report : Report) → Lawful job workers report
        → HasNoSources job → AreUnnamed job.acts
        → last_sum 0 (flat report.history) ≡ total added job.acts }
{}

/// Without names, if all pushes come before all pops, the items left are the surplus of pushes over pops. If there is
/// no surplus, the popped numbers sum to the pushed ones.
pub fn pops_after_pushes_empty_the_stack()
    ensures left { (entries : List Entry) → AreUnnamed (acts_in entries) → StandsBefore pushes pops entries
        → length (served opening_store entries 0).stack
        ≡ total pushes (acts_in entries) - total pops (acts_in entries) }
    ensures sum { (entries : List Entry) → AreUnnamed (acts_in entries) → IsLegalFrom opening_store entries
        → StandsBefore pushes pops entries
        → total pushes (acts_in entries) ≤ total pops (acts_in entries)
        → over_replies popped entries ≡ total pushed (acts_in entries) }
    ensures report { (job : JobValue) (workers : ℕ) (report : Report) → Lawful job workers report
        → HasNoSources job → AreUnnamed job.acts → ComesBefore job pushes pops
        → total pushes job.acts ≤ total pops job.acts
        → ((served_book report.history 0).stack ≡ [])
        × (over_replies popped (flat report.history) ≡ total pushed job.acts) }
{}

/// Without names, if all inserts come before all takes, the items left are the surplus of inserts over takes. If there
/// is no surplus, the taken numbers sum to the inserted ones.
pub fn takes_after_inserts_empty_the_queue()
    ensures left { (entries : List Entry) → AreUnnamed (acts_in entries)
        → StandsBefore queue_inserts queue_takes entries
        → length (served opening_store entries 0).bag
        ≡ total queue_inserts (acts_in entries) - total queue_takes (acts_in entries) }
    ensures sum { (entries : List Entry) → AreUnnamed (acts_in entries) → IsLegalFrom opening_store entries
        → StandsBefore queue_inserts queue_takes entries
        → total queue_inserts (acts_in entries) ≤ total queue_takes (acts_in entries)
        → over_replies queue_taken entries ≡ total queue_inserted (acts_in entries) }
    ensures report { (job : JobValue) (workers : ℕ) (report : Report) → Lawful job workers report
        → HasNoSources job → AreUnnamed job.acts → ComesBefore job queue_inserts queue_takes
        → total queue_inserts job.acts ≤ total queue_takes job.acts
        → ((served_book report.history 0).bag ≡ [])
        × (over_replies queue_taken (flat report.history) ≡ total queue_inserted job.acts) }
{}

/// `keys_inserted` lists the keys of the inserts into trees, ascending and without repetition. Without names, if no key
/// is removed, as many inserts reply yes as there are such keys. If moreover all inserts come before all finds, a find
/// replies yes exactly if its key is one of them.
pub fn finds_after_inserts_tell_the_inserted_keys()
    ensures inserted { (key : ℕ) (acts : List Act) → (has key (keys_inserted acts) ≡ true)
        ↔ ((number : ℕ) × Contains acts (Call (TreeInsert number key))) }
    ensures once { (acts : List Act) → StrictlyAscends (keys_inserted acts) }
    ensures keys { (entries : List Entry) → AreUnnamed (acts_in entries) → IsLegalFrom opening_store entries
        → total tree_removes (acts_in entries) ≡ 0
        → over_replies new_keys entries ≡ length (keys_inserted (acts_in entries)) }
    ensures finds { (entries : List Entry) → AreUnnamed (acts_in entries) → IsLegalFrom opening_store entries
        → total tree_removes (acts_in entries) ≡ 0 → StandsBefore tree_inserts tree_finds entries
        → AllByRecursion (FindsIn (keys_inserted (acts_in entries))) entries }
    ensures report { (job : JobValue) (workers : ℕ) (report : Report) → Lawful job workers report
        → HasNoSources job → AreUnnamed job.acts → total tree_removes job.acts ≡ 0
        → ComesBefore job tree_inserts tree_finds
        → AllByRecursion (FindsIn (keys_inserted job.acts)) (flat report.history)
        × (over_replies keys_found (flat report.history)
        ≡ total (finds_in (keys_inserted job.acts)) job.acts) }
{}

/// If a job fills each structure before it queries it, empties the stack and the queue, and removes no key
/// (`FillsFirst`), the tally of every lawful report is that of the job's acts.
pub fn tally_is_the_jobs()
    ensures { (job : JobValue) (workers : ℕ) (report : Report)
        → FillsFirst job → Lawful job workers report
        → tally_of (flat report.history) ≡ tally_of_acts job.acts }
{}

/// Under `FillsFirst`, every lawful report has the summary of the job. The code can make it if the pushed items sum to
/// less than 2^64, and likewise the items inserted into the queue. At most `MOST_LEAVES` acts with arguments below
/// 2^32 suffice for that.
pub fn summary_is_the_jobs()
    ensures lines { (job : JobValue) (workers : ℕ) (report : Report) (seed size : ℕ)
        → FillsFirst job → Lawful job workers report
        → summary_of_report seed size report ≡ summary_of_job seed size workers job }
    ensures sums { (job : JobValue) (workers : ℕ) (report : Report)
        → FillsFirst job → Lawful job workers report
        → total pushed job.acts < 2 ^ 64 → total queue_inserted job.acts < 2 ^ 64
        → CanBeSummed job report }
    ensures small { (job : JobValue) (workers : ℕ) (report : Report)
        → FillsFirst job → Lawful job workers report → length job.acts ≤ MOST_LEAVES
        → AllByRecursion (λ act. count_of_act argument_of act < 2 ^ 32) job.acts
        → CanBeSummed job report }
{}

/// Each call of a lawful report is on an object without a name or with one of the job's names.
pub fn lawful_reports_name_their_objects()
    ensures { (job : JobValue) (workers : ℕ) (report : Report)
        → IsJob job → Lawful job workers report
        → HaveNames job.names (flat report.history) }
{
    named_numbers_are_by_first_use();
    arguments_keep_objects();
}

/// If all arguments are below 2^32 and there are at most 2^32 entries, the value of each reply of a legal list is below
/// 2^64. The same holds of a lawful report of a job with at most 2^32 acts with such arguments.
pub fn replies_are_small()
    ensures entries { (entries : List Entry) → IsLegalFrom opening_store entries
        → AllByRecursion (λ entry. argument_of entry.op < 2 ^ 32) entries → length entries ≤ 2 ^ 32
        → AllByRecursion (λ entry. value_of entry.reply < 2 ^ 64) entries }
    ensures report { (job : JobValue) (workers : ℕ) (report : Report) → Lawful job workers report
        → length job.acts ≤ 2 ^ 32
        → AllByRecursion (λ act. count_of_act argument_of act < 2 ^ 32) job.acts
        → AllByRecursion (λ entry. value_of entry.reply < 2 ^ 64) (flat report.history) }
{}

/// The value of a leaf under a book is the same under a longer book, and the operation that a leaf calls is the same
/// where the values of leaves stay. A leaf with a source has an operation only where the source has a value, and only a
/// leaf whose act is a call has one. `given` is the operation of the leaf's act.
pub fn longer_book_keeps_operations()
    ensures values { (work : ℕ → ℕ) (book : List (List Entry)) (batch : List Entry) (act : Act) (source : Option ℕ)
        → (leaf value : ℕ) → value_from work book act source leaf ≡ Some value
        → value_from work (book ++ batch ∷ []) act source leaf ≡ Some value }
    ensures stays { (value later : ℕ → Option ℕ) (given : Option Op) (source : Option ℕ) (op : Op)
        → ((leaf v : ℕ) → value leaf ≡ Some v → later leaf ≡ Some v)
        → op_from value given source ≡ Some op → op_from later given source ≡ Some op }
    ensures source { (value : ℕ → Option ℕ) (given : Option Op) (source : ℕ) (op : Op)
        → op_from value given (Some source) ≡ Some op → (v : ℕ) × (value source ≡ Some v) }
    ensures calls { (value : ℕ → Option ℕ) (given : Option Op) (source : Option ℕ) (op : Op)
        → op_from value given source ≡ Some op → given ≢ None }
{}
