//! What a worker is doing, to the detail that the code which drives workers needs.
ghost use Rattle.std.specs.Prelude.{◌≡◌, ◌≢◌, ◌<◌, ℕ};
ghost use Rattle.core_state.specs.Abstraction.{state_of};
ghost use Rattle.core_model.specs.Settings.{job_of, HasLeaf, TaskIn};
ghost use Rattle.core_state.specs.Code.Lookups.{CanChoose};
ghost use Rattle.core_state.specs.Doings.{doing_free, doing_of};
ghost use Rattle.core_model.specs.Operations.{IsLeaf};
ghost use Rattle.core_model.specs.declared.status.Status.TheVariants.{Free};
ghost use Rattle.core_model.specs.declared.task.Task.TheVariants.{Started};

use crate::state::State;
use core_model::{CallState, Setting, Status, Task};

/// What a worker is doing, to the detail that the code which drives workers needs.
#[derive(Clone, Copy)]
pub enum Doing {
    /// It has started this leaf, and its call state is `NotCalled`.
    Started(u32),
    /// It has posted the call of this leaf, and has not left it.
    Calling(u32),
    /// Anything else.
    Other,
}

/// What a worker with this task is doing while its status is `Free`.
fn of_free(setting: &Setting, call: CallState, task: Task) -> Doing
    requires task_in { TaskIn (job_of setting.now).plan.count task }
    requires at_leaf { (n start : ℕ) → task ≡ Started n start → IsLeaf ((job_of setting.now).plan.kind n) }
    ensures { result ≡ doing_free (job_of setting.now).plan call task }
{
    let Task::Started { .. } = task else {
        return Doing::Other;
    };
    match call {
        CallState::NotCalled => Doing::Started(setting.started_leaf(task)),
        _ => Doing::Other,
    }
}

impl State {
    /// What a worker is doing, by its status, call state and task.
    ///
    /// Memory: none.
    #[tactic(auto, unfolding(crate::specs::Abstraction::state_of))]
    pub fn doing(&self, setting: &Setting, worker: u32) -> Doing
        requires looks { CanChoose setting.now self.now }
        requires worker_in { worker < setting.now.workers }
        requires trapped { (state_of self.now).status worker ≢ Free
            → HasLeaf (job_of setting.now).plan ((state_of self.now).task worker) }
        ensures { result ≡ doing_of (job_of setting.now) (state_of self.now) worker }
    {
        let task = self.tasks[worker as usize];
        match self.statuses[worker as usize] {
            Status::Free => of_free(setting, self.calls[worker as usize], task),
            _ => Doing::Calling(setting.started_leaf(task)),
        }
    }
}
