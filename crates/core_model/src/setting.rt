//! What a run is for: a job and its workers.
ghost use Rattle.std.specs.Prelude.{◌≡◌, ◌<◌, IfOk, IsSome};
ghost use Rattle.core_model.specs.Choice.{leaf_named};
ghost use Rattle.core_model.specs.Settings.{job_of, leaf_at as leaf_of_kind, HasLeaf, TaskIn};
ghost use Rattle.core_model.specs.Tasks.{names};

use crate::task::Task;
use sp_order::node::Kind;
use sp_order::{Job, PlannedJob};
use std::alloc::{AllocError, Global};

/// What a run is for: a job with leaves, its plan, and the number of workers.
pub struct Setting {
    pub job: PlannedJob,
    pub workers: u32,
}

// A crate that drops a value proves the drop of each type inside, down to a type with an `impl`: this one ends that of
// the job and its plan.
impl Drop for Setting {
    fn drop(self) {
        let Setting { job: _, workers: _ } = self;
    }
}

impl Setting {
    /// The setting of a job and `workers` workers.
    pub fn of(alloc: Global, job: &Job, workers: u32) -> Result<Setting, AllocError>
        requires { IsSome job.now.shape }
        ensures { IfOk result (λ s. (s.job ≡ job.now) × (s.workers ≡ workers)) }
    {
        let job = PlannedJob::of(alloc, job)?;
        Ok(Setting { job, workers })
    }

    /// The number of the leaf at a node, `None` if the node is a block.
    pub fn leaf_at(&self, node: u32) -> Option<u32>
        requires { node < (job_of self.now).plan.count }
        ensures { result ≡ leaf_of_kind ((job_of self.now).plan.kind node) }
    {
        match self.job.kind(node) {
            Kind::LeafNode(leaf) => Some(leaf),
            _ => None,
        }
    }

    /// The number of the leaf that a worker with this task has started. The task must be `Started`.
    pub fn started_leaf(&self, task: Task) -> u32
        requires task_in { TaskIn (job_of self.now).plan.count task }
        requires leaf { HasLeaf (job_of self.now).plan task }
        ensures { result ≡ leaf_named (job_of self.now).plan (names task) }
    {
        let Task::Started { node, .. } = task else {
            unreachable!()
        };
        match self.leaf_at(node) {
            Some(leaf) => leaf,
            None => unreachable!(),
        }
    }
}
