//! The laws of runs: what events reach from the opening, how long a run by turns is, and the state to which a schedule
//! drives a job. Each law is the contract of an empty function.
ghost use Rattle.std.specs.Prelude.{◌≡◌, ℕ, ◌<◌, ◌≤◌, ◌+◌, ◌*◌, true, List, length};
ghost use Rattle.std.specs.List.{AllByRecursion};
ghost use Rattle.sp_order.specs.Precedence.{Tree};
ghost use Rattle.sp_order.specs.PlanOf.{IsPlanOf};
ghost use Rattle.core_model.specs.declared.event.Event.{Event};
ghost use Rattle.core_model.specs.LeafSources.{HasSources};
ghost use Rattle.core_model.specs.State.{CoreJob, CoreState, opening_core};
ghost use Rattle.core_model.specs.Runs.{IsStep, Step, IsReached, TurnsReach, steps_of, driven};
ghost use Rattle.core_model.specs.Tasks.{is_done};
ghost use Rattle.core_model.specs.Measure.{call_count};

use sp_order::laws::plan_has_sides;

/// An event leads from a reached state to a reached state.
pub fn step_leads_to_reached()
    ensures { (job : CoreJob) (old new : CoreState) (worker : ℕ) (event : Event) → IsReached job old
        → IsStep job old worker event new
        → IsReached job new }
{}

/// Each schedule of the job's workers drives the job of a tree to some state.
pub fn schedule_drives_to_a_state()
    ensures { (job : CoreJob) (tree : Tree) (schedule : List ℕ) → IsPlanOf job.plan tree
        → HasSources job
        → 0 < job.workers
        → AllByRecursion (λ worker. worker < job.workers) schedule
        → (state : CoreState) × driven job schedule state }
{
    plan_has_sides();
}

/// A schedule drives a job to at most one state, so that state is a function of the job and the schedule.
pub fn schedule_drives_to_one_state()
    ensures { (job : CoreJob) (schedule : List ℕ) (a b : CoreState) → driven job schedule a
        → driven job schedule b
        → a ≡ b }
{}

/// The state to which a schedule drives the job is reached, and its root is done.
pub fn driven_is_reached()
    ensures reached { (job : CoreJob) (schedule : List ℕ) (state : CoreState)
        → driven job schedule state
        → IsReached job state }
    ensures done { (job : CoreJob) (schedule : List ℕ) (state : CoreState)
        → driven job schedule state
        → is_done (state.state.node 0) ≡ true }
{}

/// A run by turns from the opening has at most six events a node, and for each calling leaf six more and one for each
/// worker.
pub fn runs_by_turns_are_short()
    ensures { (job : CoreJob) (tree : Tree) (steps : List Step) (state : CoreState)
        → IsPlanOf job.plan tree
        → 0 < job.workers
        → TurnsReach job opening_core steps state
        → length steps ≤ 6 * job.plan.count + call_count job * (job.workers + 6) }
{
    plan_has_sides();
}

/// The events through which a schedule drives a job are those of its workers' turns, and they obey the same bound.
pub fn driven_runs_are_short()
    ensures { (job : CoreJob) (tree : Tree) (schedule : List ℕ) (state : CoreState)
        → IsPlanOf job.plan tree
        → 0 < job.workers
        → (drives : driven job schedule state)
        → TurnsReach job opening_core (steps_of job opening_core state schedule 0 drives) state
        × (length (steps_of job opening_core state schedule 0 drives)
        ≤ 6 * job.plan.count + call_count job * (job.workers + 6)) }
{
    plan_has_sides();
}
