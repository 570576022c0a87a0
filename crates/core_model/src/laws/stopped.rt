//! The laws of runs in which some workers have stopped. Each is the contract of an empty function.
ghost use Rattle.std.specs.Prelude.{◌≡◌, ℕ, ◌<◌, Bool, true, false};
ghost use Rattle.sp_order.specs.Precedence.{Tree};
ghost use Rattle.sp_order.specs.Plans.{IsPlan};
ghost use Rattle.sp_order.specs.PlanOf.{IsPlanOf};
ghost use Rattle.core_model.specs.declared.task.Task.TheVariants.{Idle};
ghost use Rattle.core_model.specs.Invariant.{Invariant};
ghost use Rattle.core_model.specs.LeafSources.{HasSources};
ghost use Rattle.core_model.specs.State.{CoreJob, CoreState};
ghost use Rattle.core_model.specs.Stopped.{LiveDrive};
ghost use Rattle.core_model.specs.Tasks.{is_done};

use sp_order::laws::plan_has_sides;

/// The turns of the live workers lead to at most one state, which is thus a function of the job, the live set, the
/// first state and the first worker. They preserve the invariant.
pub fn live_turns_lead_to_one_state()
    ensures one { (job : CoreJob) (live : ℕ → Bool) (first a b : CoreState) (robin : ℕ)
        → LiveDrive job live first robin a
        → LiveDrive job live first robin b
        → a ≡ b }
    ensures keeps { (job : CoreJob) (live : ℕ → Bool) (first last : CoreState) (robin : ℕ)
        → IsPlan job.plan
        → Invariant job first
        → LiveDrive job live first robin last
        → Invariant job last }
{}

/// Workers that stopped without a task cost the others nothing: if no stopped worker has a task and some worker is
/// live, a drive of the live workers ends with the root done.
pub fn idle_stopped_workers_cost_nothing()
    ensures { (job : CoreJob) (tree : Tree) (live : ℕ → Bool) (first last : CoreState)
        (robin one : ℕ)
        → IsPlanOf job.plan tree
        → HasSources job
        → Invariant job first
        → one < job.workers → live one ≡ true
        → ((w : ℕ) → w < job.workers → live w ≡ false → first.state.task w ≡ Idle)
        → LiveDrive job live first robin last
        → is_done (last.state.node 0) ≡ true }
{
    plan_has_sides();
}
