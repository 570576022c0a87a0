//! The laws of the invariant: it holds at the opening, each event preserves it, and what follows from it. Each law is
//! the contract of an empty function.
//!
//! `Parts` is the invariant without the lists of ready nodes.
ghost use Rattle.std.specs.Prelude.{◌≡◌, ◌≢◌, ℕ, ◌<◌, ◌≤◌, ◌*◌, None, Some};
ghost use Rattle.sp_order.specs.declared.node.Kind.TheVariants.{SeqNode, ParNode};
ghost use Rattle.sp_order.specs.declared.node.Move.TheVariants.{OpenSecond, FinishParent, Arrive};
ghost use Rattle.sp_order.specs.Jobs.{JobValue};
ghost use Rattle.sp_order.specs.Precedence.{Tree, leaves, IsBefore};
ghost use Rattle.sp_order.specs.Plans.{Nodes, IsPlan, IsSide};
ghost use Rattle.sp_order.specs.PlanOf.{IsPlanOf};
ghost use Rattle.core_model.specs.declared.progress.Progress.TheVariants.{Ran};
ghost use Rattle.core_model.specs.declared.task.Task.TheVariants.{Whole};
ghost use Rattle.core_model.specs.declared.event.Event.{Event};
ghost use Rattle.core_model.specs.State.{CoreJob, State, CoreState, opening_state, opening_core, core_job_with};
ghost use Rattle.core_model.specs.Events.{EventKind, Happens, IsEvent};
ghost use Rattle.core_model.specs.Invariant.Ticks.{HasStart};
ghost use Rattle.core_model.specs.Invariant.{Parts, Invariant};
ghost use Rattle.core_model.specs.Runs.{IsStep, IsReached};

use sp_order::laws::{
    before_is_by_series, leaf_has_one_node, plan_has_sides, plan_stands_for_tree,
};

/// The opening state of a job with a root has the `Parts`.
pub fn opening_has_parts()
    ensures { (job : CoreJob) → IsPlan job.plan → job.plan.kind 0 ≢ None → Parts job opening_state }
{}

/// Each event preserves the `Parts`, whichever worker makes it. This needs no assumption on the order of events.
pub fn event_keeps_parts()
    ensures event { (job : CoreJob) (old new : State) (worker : ℕ) (event : Event) → IsPlan job.plan
        → Parts job old → Happens job old worker event new → Parts job new }
    ensures kind { (job : CoreJob) (old new : State) (worker : ℕ) (kind : EventKind)
        → IsPlan job.plan
        → Parts job old → IsEvent job old worker kind new → Parts job new }
{}

/// The opening state with its lists has the invariant.
pub fn opening_has_invariant()
    ensures { (job : CoreJob) → IsPlan job.plan → job.plan.kind 0 ≢ None → 0 < job.workers
        → Invariant job opening_core }
{}

/// Each event preserves the invariant.
pub fn event_keeps_invariant()
    ensures { (job : CoreJob) (old new : CoreState) (worker : ℕ) (event : Event) → IsPlan job.plan
        → Invariant job old → IsStep job old worker event new → Invariant job new }
{}

/// Each state that events reach from the opening state has the invariant.
pub fn reached_has_invariant()
    ensures { (work : ℕ → ℕ) (job : JobValue) (workers : ℕ) (state : CoreState) → 0 < workers
        → IsReached (core_job_with work job workers) state
        → Invariant (core_job_with work job workers) state }
{
    plan_stands_for_tree();
    plan_has_sides();
}

/// If leaf `u` precedes leaf `v` and `v` has started, then `u` is done and its end tick is below `v`'s start tick.
pub fn leaf_before_has_ended()
    ensures { (job : CoreJob) (tree : Tree) (state : State) → IsPlanOf job.plan tree
        → Parts job state
        → (u v worker start : ℕ) → u < leaves tree → v < leaves tree
        → IsBefore (Some tree) u v
        → HasStart state.node state.task (job.plan.node_of v) worker start
        → (w : ℕ) × (s : ℕ) × (e : ℕ) × (state.node (job.plan.node_of u) ≡ Ran w s e) × (e < start) }
{
    before_is_by_series();
    leaf_has_one_node();
}

/// The plan's move after a node says which side it is: the left one of a series, the right one of a series, or a side
/// of a parallel block. So the block that the move names does have the node as that side.
pub fn moves_tell_sides()
    ensures second { (plan : Nodes) (n p : ℕ) → IsPlan plan
        → plan.after n ≡ OpenSecond p
        → (r : ℕ) × (plan.kind p ≡ Some (SeqNode n r)) }
    ensures parent { (plan : Nodes) (n p : ℕ) → IsPlan plan
        → plan.after n ≡ FinishParent p
        → (l : ℕ) × (plan.kind p ≡ Some (SeqNode l n)) }
    ensures arrive { (plan : Nodes) (n p : ℕ) → IsPlan plan
        → plan.after n ≡ Arrive p
        → (l : ℕ) × (r : ℕ) × (plan.kind p ≡ Some (ParNode l r)) × IsSide plan p n }
{}

/// The tick is at most twice the number of nodes.
pub fn tick_is_at_most_two_a_node()
    ensures { (job : CoreJob) (state : State) → IsPlan job.plan
        → Parts job state
        → state.tick ≤ 2 * job.plan.count }
{}

/// When a side is about to arrive at its parallel block, the block's mark is below 2: it is the first or the second to
/// arrive.
pub fn mark_before_arrival_is_below_two()
    ensures { (job : CoreJob) (state : State) (worker p l r n : ℕ) → IsPlan job.plan
        → Parts job state
        → state.task worker ≡ Whole n
        → job.plan.kind p ≡ Some (ParNode l r)
        → IsSide job.plan p n
        → state.mark p < 2 }
{}
