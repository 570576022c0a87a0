//! The laws of the book: where entries are, which entries an event adds, whose entry a receipt describes, which
//! operation a leaf calls, and how many entries there can be. Each law is the contract of an empty function.
ghost use Rattle.std.specs.Prelude.{◌≡◌, ◌≢◌, ℕ, ◌<◌, ◌≤◌, ◌+◌, ◌⊎◌, true, false, None, Some, List, [], ◌∷◌, ◌++◌, length, map, Contains};
ghost use Rattle.std.specs.List.{AllByRecursion};
ghost use Rattle.seq_objects.specs.Pairs.{AreDistinct};
ghost use Rattle.seq_objects.specs.declared.act.Act.TheVariants.{Call};
ghost use Rattle.seq_objects.specs.declared.op.Op.{Op};
ghost use Rattle.sp_order.specs.declared.node.Kind.TheVariants.{LeafNode};
ghost use Rattle.sp_order.specs.Jobs.{IsJob, JobValue, job_tree};
ghost use Rattle.sp_order.specs.Sources.{with_value};
ghost use Rattle.sp_order.specs.Precedence.{leaves};
ghost use Rattle.sp_order.specs.Plans.{IsPlan};
ghost use Rattle.batch_history.specs.Book.{flat};
ghost use Rattle.batch_history.specs.declared.batch.Entry.{Entry};
ghost use Rattle.core_model.specs.declared.event.Event.{Event};
ghost use Rattle.core_model.specs.declared.event.Event.TheVariants.{Publish};
ghost use Rattle.core_model.specs.declared.status.CallState.TheVariants.{Got};
ghost use Rattle.core_model.specs.declared.status.Receipt.{Receipt};
ghost use Rattle.core_model.specs.declared.status.Status.TheVariants.{Served};
ghost use Rattle.core_model.specs.Entries.{entries_of, StandsAt, IsUnserved};
ghost use Rattle.core_model.specs.Events.{Happens, HasStarted};
ghost use Rattle.core_model.specs.Invariant.{Parts};
ghost use Rattle.core_model.specs.Invariant.Statuses.{is_taken_by};
ghost use Rattle.core_model.specs.LeafSources.{HasItsValue, HasSources};
ghost use Rattle.core_model.specs.Measure.{call_count};
ghost use Rattle.core_model.specs.Operations.{IsCall, Place, op_of, or_else, origin_of, place_in, place_of, receipt_for, value_under};
ghost use Rattle.core_model.specs.State.{CoreJob, State, core_job_with};
ghost use Rattle.core_model.specs.Waits.{task_place};

use sp_order::laws::{
    before_is_by_series, leaf_has_one_node, plan_has_sides, plan_stands_for_tree,
};

/// `place_of` finds an entry of its leaf, at the place it states. After one more batch an entry found before is found
/// again; otherwise the new batch is searched. If the leaves are distinct, the search by its leaf finds each entry of
/// the book.
pub fn entries_are_found_at_their_places()
    ensures leaf { (book : List (List Entry)) (leaf : ℕ) (place : Place)
        → place_of book leaf ≡ Some place → place.entry.leaf ≡ leaf }
    ensures stands { (book : List (List Entry)) (leaf : ℕ) (place : Place)
        → place_of book leaf ≡ Some place → StandsAt book place.batch place.place place.entry }
    ensures longer { (book : List (List Entry)) (batch : List Entry) (leaf : ℕ)
        → place_of (book ++ batch ∷ []) leaf ≡ or_else (place_of book leaf) (place_in (length book) 0 batch leaf) }
    ensures each { (book : List (List Entry)) (entry : Entry)
        → AreDistinct (map (λ e. e.leaf) (flat book)) → Contains (flat book) entry
        → (place : Place) × (place_of book entry.leaf ≡ Some place) × (place.entry ≡ entry) }
{}

/// Only a publish changes the book. It adds one entry to each worker whose call is taken: that of the call, in the new
/// batch, where the worker's leaf had no entry before. Workers whose call is not taken gain no entry.
pub fn publish_adds_the_taken_call()
    ensures other { (job : CoreJob) (old new : State) (worker : ℕ) (event : Event)
        → Happens job old worker event new → event ≢ Publish
        → new.book ≡ old.book }
    ensures untaken { (job : CoreJob) (old new : State) (worker : ℕ) → IsPlan job.plan
        → Parts job old → Happens job old worker Publish new
        → (w : ℕ) → is_taken_by old.hold w ≡ false
        → (entries_of w (flat new.book) ≡ entries_of w (flat old.book))
        × (task_place job new.book (old.task w) ≡ task_place job old.book (old.task w)) }
    ensures taken { (job : CoreJob) (old new : State) (worker : ℕ) → IsPlan job.plan
        → Parts job old → Happens job old worker Publish new
        → (w : ℕ) → is_taken_by old.hold w ≡ true
        → (task_place job old.book (old.task w) ≡ None)
        × (place : Place) × (task_place job new.book (old.task w) ≡ Some place)
        × (place.batch ≡ length old.book) × (place.entry.worker ≡ w)
        × (entries_of w (flat new.book) ≡ entries_of w (flat old.book) ++ place.entry ∷ []) }
{}

/// A worker with a receipt has that of its own call. The entry has the worker's leaf, number and operation and the
/// receipt's reply, and stands in the book at the receipt's batch and place.
pub fn receipt_is_of_the_own_entry()
    ensures { (job : CoreJob) (state : State) (worker node leaf : ℕ) (op : Op) (receipt : Receipt)
        → Parts job state
        → (state.status worker ≡ Served receipt) ⊎ (state.call worker ≡ Got receipt)
        → HasStarted job state worker node leaf
        → op_of job state.book leaf ≡ Some op
        → (place : Place) × (task_place job state.book (state.task worker) ≡ Some place)
        × (place_of state.book leaf ≡ Some place) × (receipt ≡ receipt_for place)
        × (place.entry ≡ record { leaf = leaf; worker = worker; op = op; reply = receipt.reply })
        × StandsAt state.book receipt.batch receipt.place place.entry }
{}

/// A longer book keeps the value and the operation of a leaf. A leaf that has an operation under a book calls, and its
/// source, if it has one, has a value under the book.
pub fn operations_stay()
    ensures values { (job : CoreJob) (book : List (List Entry)) (batch : List Entry) (leaf value : ℕ)
        → value_under job book leaf ≡ Some value → value_under job (book ++ batch ∷ []) leaf ≡ Some value }
    ensures longer { (job : CoreJob) (book : List (List Entry)) (batch : List Entry) (leaf : ℕ) (op : Op)
        → op_of job book leaf ≡ Some op → op_of job (book ++ batch ∷ []) leaf ≡ Some op }
    ensures calls { (job : CoreJob) (book : List (List Entry)) (leaf : ℕ) (op : Op)
        → op_of job book leaf ≡ Some op → IsCall job leaf }
    ensures source { (job : CoreJob) (book : List (List Entry)) (leaf source : ℕ) (op : Op)
        → op_of job book leaf ≡ Some op → job.source leaf ≡ Some source
        → (value : ℕ) × (value_under job book source ≡ Some value) }
{}

/// Once a leaf has started, its source has its value: it is done, and its node has the value that it has under the book.
/// So no batch gathers a call, and no leaf works, before the book has what the call's operation or the work depends on.
pub fn started_leaf_has_its_source()
    ensures { (job : CoreJob) (state : State) (worker node leaf source : ℕ) → HasSources job
        → Parts job state
        → HasStarted job state worker node leaf → job.source leaf ≡ Some source
        → HasItsValue job state source }
{}

/// The entry of a leaf with a source has the operation of its act, with the low 32 bits of the value of the source as its
/// argument. The entry from whose reply this value comes, if it comes from one, stands in an earlier batch than the
/// leaf's own.
pub fn sources_come_first()
    ensures argument { (job : CoreJob) (state : State) (leaf source : ℕ) (later : Place)
        → Parts job state → job.source leaf ≡ Some source
        → place_of state.book leaf ≡ Some later
        → (value : ℕ) × (value_under job state.book source ≡ Some value)
        × (op : Op) × (job.act leaf ≡ Call op) × (later.entry.op ≡ with_value op value) }
    ensures earlier { (job : CoreJob) (state : State) (leaf source origin : ℕ) (later : Place)
        → Parts job state → job.source leaf ≡ Some source → origin_of job source ≡ Some origin
        → place_of state.book leaf ≡ Some later
        → (earlier : Place) × (place_of state.book origin ≡ Some earlier) × (earlier.batch < later.batch) }
{}

/// In the model of a job each source of a leaf is a leaf whose value it may take, and by a series its node is before the
/// leaf's.
pub fn job_has_its_sources()
    ensures { (work : ℕ → ℕ) (job : JobValue) (workers : ℕ) → IsJob job
        → HasSources (core_job_with work job workers) }
{
    plan_stands_for_tree();
    leaf_has_one_node();
    before_is_by_series();
}

/// A book has at most as many batches as entries. Its entries, together with the calls of distinct workers that no
/// batch has served yet, number at most the calling leaves, provided that the plan has a node for each of these. The
/// plan of a tree with as many leaves as acts does; there they also number at most the leaves.
pub fn calls_have_room()
    ensures batches { (job : CoreJob) (state : State) → Parts job state
        → length state.book ≤ length (flat state.book) }
    ensures plan { (job : CoreJob) (state : State) (workers : List ℕ) → IsPlan job.plan
        → ((leaf : ℕ) → IsCall job leaf → (n : ℕ) × (job.plan.kind n ≡ Some (LeafNode leaf)))
        → Parts job state
        → AreDistinct workers → AllByRecursion (IsUnserved state) workers
        → length (flat state.book) + length workers ≤ call_count job }
    ensures tree { (work : ℕ → ℕ) (job : JobValue) (count : ℕ) (state : State) (workers : List ℕ)
        → length job.acts ≡ leaves (job_tree job)
        → Parts (core_job_with work job count) state
        → AreDistinct workers → AllByRecursion (IsUnserved state) workers
        → (length (flat state.book) + length workers ≤ call_count (core_job_with work job count))
        × (length (flat state.book) + length workers ≤ leaves (job_tree job)) }
{
    plan_stands_for_tree();
    plan_has_sides();
    leaf_has_one_node();
}
