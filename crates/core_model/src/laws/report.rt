//! The laws of finished runs and their reports. Each is the contract of an empty function.
ghost use Rattle.std.specs.Prelude.{◌≡◌, ◌≢◌, ℕ, ◌<◌, true, None, Some, List, length};
ghost use Rattle.sp_order.specs.Precedence.{Tree, leaves};
ghost use Rattle.sp_order.specs.PlanOf.{IsPlanOf};
ghost use Rattle.batch_history.specs.Lawful.{LawfulWith};
ghost use Rattle.batch_history.specs.declared.report.Report.{Report};
ghost use Rattle.core_model.specs.declared.task.Task.TheVariants.{Idle};
ghost use Rattle.core_model.specs.declared.status.Status.TheVariants.{Free};
ghost use Rattle.core_model.specs.State.{CoreJob, CoreState, State, core_job_with, opening_core};
ghost use Rattle.core_model.specs.Runs.{IsReached};
ghost use Rattle.sp_order.specs.Jobs.{JobValue, job_tree};
ghost use Rattle.core_model.specs.Tasks.{is_done};
ghost use Rattle.core_model.specs.Invariant.{Parts};
ghost use Rattle.core_model.specs.Reports.{HasRun, IsReportOf, IsDrivenFrom, IsDrivenReportWith, IsRunFrom, IsRunReportWith};

use sp_order::laws::{
    before_is_by_series, leaf_has_one_node, plan_has_sides, plan_stands_for_tree,
};

/// Once the root is done, every node is done, every worker is `Idle` and `Free`, and the flag is free.
pub fn done_root_ends_all()
    ensures { (job : CoreJob) (tree : Tree) (state : State) → IsPlanOf job.plan tree
        → Parts job state
        → is_done (state.node 0) ≡ true
        → ((n : ℕ) → job.plan.kind n ≢ None → is_done (state.node n) ≡ true)
        × ((w : ℕ) → state.task w ≡ Idle)
        × ((w : ℕ) → state.status w ≡ Free)
        × (state.hold ≡ None) }
{
    plan_has_sides();
}

/// Once the root is done, each leaf has run and has a value.
pub fn done_leaves_have_run()
    ensures { (job : CoreJob) (tree : Tree) (state : State) → IsPlanOf job.plan tree
        → Parts job state
        → is_done (state.node 0) ≡ true
        → (leaf : ℕ) → leaf < leaves tree
        → HasRun (state.node (job.plan.node_of leaf)) × (state.value (job.plan.node_of leaf) ≢ None) }
{
    plan_has_sides();
    leaf_has_one_node();
}

/// The report of a state whose root is done is lawful.
pub fn done_report_is_lawful()
    ensures { (work : ℕ → ℕ) (job : JobValue) (workers : ℕ) (state : State) (report : Report)
        → job.shape ≡ Some (job_tree job)
        → length job.acts ≡ leaves (job_tree job)
        → Parts (core_job_with work job workers) state
        → is_done (state.node 0) ≡ true
        → IsReportOf (core_job_with work job workers) (leaves (job_tree job)) state report
        → LawfulWith work job workers report }
{
    plan_stands_for_tree();
    plan_has_sides();
    leaf_has_one_node();
    before_is_by_series();
}

/// A state has at most one report.
pub fn report_is_one()
    ensures { (job : CoreJob) (leaf_total : ℕ) (state : State) (a b : Report)
        → IsReportOf job leaf_total state a
        → IsReportOf job leaf_total state b
        → a ≡ b }
{}

/// The report of a run by turns is the report of a run of the model.
pub fn driven_report_is_of_a_run()
    ensures from { (job : CoreJob) (leaf_total : ℕ) (first : CoreState) (schedule : List ℕ) (report : Report)
        → IsDrivenFrom job leaf_total first schedule report
        → IsRunFrom job leaf_total first report }
    ensures opening { (work : ℕ → ℕ) (job : JobValue) (workers : ℕ) (schedule : List ℕ) (report : Report)
        → IsDrivenReportWith work job workers schedule report
        → IsRunReportWith work job workers report }
{}

/// A run from a reached state extends to a run from the opening state, with the same report.
pub fn run_goes_on_from_reached()
    ensures { (job : CoreJob) (leaf_total : ℕ) (state : CoreState) (report : Report) → IsReached job state
        → IsRunFrom job leaf_total state report
        → IsRunFrom job leaf_total opening_core report }
{}
