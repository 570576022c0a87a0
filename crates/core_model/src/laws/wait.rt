//! The laws that bound how long a worker waits. Each is the contract of an empty function.
ghost use Rattle.std.specs.Prelude.{◌≡◌, ℕ, ◌<◌, ◌≤◌, ◌+◌, ◌⊎◌, length};
ghost use Rattle.sp_order.specs.Jobs.{JobValue};
ghost use Rattle.sp_order.specs.Plans.{IsPlan};
ghost use Rattle.core_model.specs.declared.event.Event.{Event};
ghost use Rattle.core_model.specs.declared.status.Status.TheVariants.{Pending, Served};
ghost use Rattle.core_model.specs.declared.status.Receipt.{Receipt};
ghost use Rattle.core_model.specs.State.{CoreJob, State, CoreState, core_job_with};
ghost use Rattle.core_model.specs.Events.{Happens};
ghost use Rattle.core_model.specs.Invariant.{Parts};
ghost use Rattle.core_model.specs.Runs.{IsReached};
ghost use Rattle.core_model.specs.Waits.{IsTrapped, WaitsSince, StaysTrapped};

use sp_order::laws::{plan_has_sides, plan_stands_for_tree};

/// A trapped worker satisfies `WaitsSince` with the present number of batches.
pub fn trapped_waits_from_now()
    ensures { (job : CoreJob) (state : State) (worker : ℕ) → Parts job state
        → IsTrapped state worker
        → WaitsSince job state worker (length state.book) }
{}

/// Each event preserves a waiter's `WaitsSince` while that worker stays trapped.
pub fn event_keeps_waits()
    ensures { (job : CoreJob) (old new : State) (worker : ℕ) (event : Event) (waiter since : ℕ)
        → IsPlan job.plan
        → Parts job old
        → Happens job old worker event new
        → IsTrapped new waiter
        → WaitsSince job old waiter since
        → WaitsSince job new waiter since }
{}

/// A worker that stays trapped from some state on satisfies `WaitsSince` with that state's number of batches.
pub fn trapped_waits_since_then()
    ensures kept { (job : CoreJob) (worker : ℕ) (first last : State) → IsPlan job.plan
        → Parts job first
        → StaysTrapped job worker first last
        → WaitsSince job last worker (length first.book) }
    ensures reached { (work : ℕ → ℕ) (job : JobValue) (workers worker : ℕ) (first : CoreState) (last : State)
        → 0 < workers
        → IsReached (core_job_with work job workers) first
        → StaysTrapped (core_job_with work job workers) worker first.state last
        → WaitsSince (core_job_with work job workers) last worker (length first.state.book) }
{
    plan_stands_for_tree();
    plan_has_sides();
}

/// If a worker stays trapped until its call is served, the receipt's batch was there at the beginning or is one of the
/// next two.
pub fn two_batches_at_most()
    ensures { (work : ℕ → ℕ) (job : JobValue) (workers worker : ℕ) (first : CoreState) (last : State) (receipt : Receipt)
        → 0 < workers
        → IsReached (core_job_with work job workers) first
        → StaysTrapped (core_job_with work job workers) worker first.state last
        → last.status worker ≡ Served receipt
        → receipt.batch ≤ length first.state.book + 1 }
{
    plan_stands_for_tree();
    plan_has_sides();
}

/// If the call is pending at the beginning, it is served in one of the next two batches.
pub fn pending_call_is_in_next_two()
    ensures { (work : ℕ → ℕ) (job : JobValue) (workers worker : ℕ) (first : CoreState) (last : State) (receipt : Receipt)
        → 0 < workers
        → IsReached (core_job_with work job workers) first
        → first.state.status worker ≡ Pending
        → StaysTrapped (core_job_with work job workers) worker first.state last
        → last.status worker ≡ Served receipt
        → (receipt.batch ≡ length first.state.book) ⊎ (receipt.batch ≡ length first.state.book + 1) }
{
    plan_stands_for_tree();
    plan_has_sides();
}
