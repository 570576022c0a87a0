//! The laws of a worker's turn: which event it chooses, and what events do to a state. Each law is the contract of an
//! empty function.
ghost use Rattle.std.specs.Prelude.{◌≡◌, ◌≢◌, ℕ, ◌<◌, ◌≤◌, ◌+◌, ◌*◌, Bool, true, false, None, Some};
ghost use Rattle.sp_order.specs.Precedence.{Tree};
ghost use Rattle.sp_order.specs.Plans.{IsPlan};
ghost use Rattle.sp_order.specs.PlanOf.{IsPlanOf};
ghost use Rattle.core_model.specs.declared.next.Next.{Next};
ghost use Rattle.core_model.specs.declared.status.Status.TheVariants.{Free};
ghost use Rattle.core_model.specs.declared.task.Task.TheVariants.{Idle};
ghost use Rattle.core_model.specs.declared.event.Event.{Event};
ghost use Rattle.core_model.specs.declared.event.Event.TheVariants.{Claim};
ghost use Rattle.core_model.specs.State.{CoreJob, State, CoreState, opening_state, opening_core};
ghost use Rattle.core_model.specs.Events.{Needs, Does, Happens};
ghost use Rattle.core_model.specs.Invariant.{Parts, Invariant};
ghost use Rattle.core_model.specs.LeafSources.{HasSources};
ghost use Rattle.core_model.specs.Choice.{choice, LeavesAnEnd};
ghost use Rattle.core_model.specs.Next.{next_act, IsNextEvent};
ghost use Rattle.core_model.specs.Ranges.{IsInRange};
ghost use Rattle.core_model.specs.Runs.{IsStep};
ghost use Rattle.core_model.specs.Tasks.{is_done};
ghost use Rattle.core_model.specs.Measure.{measure, call_count};

use sp_order::laws::plan_has_sides;

/// The next act of a worker whose status is `Free` is one event, which can happen: its needs are met. A worker that has
/// a task has a next act.
pub fn next_is_event()
    ensures event { (job : CoreJob) (state : State) (worker : ℕ) (act : Next) → IsPlan job.plan
        → HasSources job → Parts job state
        → state.status worker ≡ Free
        → next_act job (state.task worker) (state.call worker) ≡ Some act
        → IsNextEvent job state worker act }
    ensures some { (job : CoreJob) (state : State) (worker : ℕ) → IsPlan job.plan
        → HasSources job → Parts job state
        → state.status worker ≡ Free
        → state.task worker ≢ Idle
        → next_act job (state.task worker) (state.call worker) ≢ None }
{}

/// The event that a turn chooses has its needs met.
pub fn choice_has_its_needs()
    ensures { (job : CoreJob) (state : CoreState) (worker : ℕ) (event : Event) → IsPlan job.plan
        → HasSources job → worker < job.workers → Invariant job state
        → choice job state worker ≡ Some event
        → Needs job state.state worker event }
{}

/// If a worker's turn chooses no event, no event of this worker has its needs met.
pub fn no_choice_has_no_event()
    ensures { (job : CoreJob) (state : CoreState) (worker : ℕ) → IsPlan job.plan
        → HasSources job → worker < job.workers → Invariant job state
        → choice job state worker ≡ None
        → (event : Event) → Needs job state.state worker event → ⊥ }
{}

/// The nodes that an event names are nodes of the plan, and the workers it names are workers of the job.
pub fn events_are_in_range()
    ensures { (job : CoreJob) (state : State) (worker : ℕ) (event : Event) → IsPlan job.plan
        → Parts job state
        → Needs job state worker event
        → IsInRange job.plan.count job.workers event }
{}

/// A node chosen for a claim is the newest of the worker's own list, or, if that is empty, the oldest of some list. The
/// claim removes just that end.
pub fn claimed_node_leaves_an_end()
    ensures { (job : CoreJob) (state : CoreState) (worker node : ℕ) → IsPlan job.plan
        → HasSources job → worker < job.workers → Invariant job state
        → choice job state worker ≡ Some (Claim node)
        → LeavesAnEnd state.ready worker node }
{}

/// At the opening, worker 0's turn chooses to claim the root. With two workers, worker 1's turn chooses to steal it.
pub fn opening_choices()
    ensures own { (job : CoreJob) → choice job opening_core 0 ≡ Some (Claim 0) }
    ensures stolen { (job : CoreJob) → job.workers ≡ 2 → choice job opening_core 1 ≡ Some (Claim 0) }
{}

/// An event whose needs are met happens: some state results from it.
pub fn event_with_its_needs_happens()
    ensures { (job : CoreJob) (state : State) (worker : ℕ) (event : Event) → HasSources job
        → Parts job state
        → worker < job.workers
        → Needs job state worker event
        → (new : State) × Happens job state worker event new }
{}

/// An event has at most one result in a given state.
pub fn event_makes_one_state()
    ensures { (job : CoreJob) (state a b : State) (worker : ℕ) (event : Event)
        → Does job state worker event a → Does job state worker event b → a ≡ b }
{}

/// Progress: while the root is not done, the turn of some worker chooses an event, and some state results from it.
pub fn some_turn_makes_an_event()
    ensures { (job : CoreJob) (tree : Tree) (state : CoreState) → IsPlanOf job.plan tree
        → HasSources job
        → Invariant job state
        → is_done (state.state.node 0) ≡ false
        → (worker : ℕ) × (worker < job.workers)
        × (event : Event) × (choice job state worker ≡ Some event)
        × (new : CoreState) × IsStep job state worker event new }
{
    plan_has_sides();
}

/// Progress despite stopped workers: while the root is not done, no stopped worker has a task and some worker is live,
/// the turn of some live worker chooses an event, and some state results from it.
pub fn some_live_turn_makes_an_event()
    ensures { (job : CoreJob) (tree : Tree) (state : CoreState) (live : ℕ → Bool) (one : ℕ)
        → IsPlanOf job.plan tree
        → HasSources job
        → Invariant job state
        → is_done (state.state.node 0) ≡ false
        → one < job.workers → live one ≡ true
        → ((w : ℕ) → w < job.workers → live w ≡ false → state.state.task w ≡ Idle)
        → (worker : ℕ) × (worker < job.workers) × (live worker ≡ true)
        × (event : Event) × (choice job state worker ≡ Some event)
        × (new : CoreState) × IsStep job state worker event new }
{
    plan_has_sides();
}

/// The event of a turn lowers the measure, which bounds the events left.
pub fn turns_lower_measure()
    ensures { (job : CoreJob) (state : CoreState) (worker : ℕ) (event : Event) (new : State)
        → IsPlan job.plan → HasSources job
        → worker < job.workers → Invariant job state
        → choice job state worker ≡ Some event
        → Does job state.state worker event new
        → measure job new < measure job state.state }
{}

/// The measure at the opening is at most six a node, and for each calling leaf six more and one for each worker.
pub fn opening_measure_is_bounded()
    ensures { (job : CoreJob)
        → measure job opening_state ≤ 6 * job.plan.count + call_count job * (job.workers + 6) }
{}
