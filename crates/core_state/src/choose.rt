//! The choice of a worker's turn: the event it can make in this state, if any. A leaf of work runs here, and nothing is
//! written.
ghost use Rattle.std.specs.Prelude.{◌≡◌, ◌<◌, length, None, IfOk, IsTrue};
ghost use Rattle.core_model.specs.Settings.{job_with};
ghost use Rattle.core_model.specs.Choice.{choice, choice_by, choice_free};
ghost use Rattle.core_state.specs.Abstraction.{state_of, core_state_of};
ghost use Rattle.core_state.specs.Code.Lookups.{CanChoose, CanGiveDue};
ghost use Rattle.core_state.specs.Code.Representation.{Represents};

mod calls;
mod nodes;

use crate::state::State;
use core_model::{Event, Setting, Status, Task};
use leaf_work::{WorkBrand, WorkValue};
use std::alloc::{AllocError, Global};

impl State {
    /// The event, by task, of a worker whose status is `Free`.
    #[tactic(auto, unfolding(crate::specs::Abstraction::state_of, crate::specs::Abstraction::ready_of))]
    #[inline(always)]
    fn choose_free<B: WorkBrand, V: WorkValue>(
        &self,
        alloc: Global,
        setting: &Setting,
        worker: u32,
        work: &V,
    ) -> Result<Option<Event>, AllocError>
        requires fits { Represents B.work setting.now self.now }
        requires looks { CanChoose setting.now self.now }
        requires worker_in { worker < setting.now.workers }
        requires meaning { V.meaning work.now ≡ B.work }
        requires has { CanGiveDue V.has work.now setting.now self.now worker }
        ensures { IfOk result (λ event. event ≡ choice_free (job_with B.work setting.now) (core_state_of self.now) worker
            ((state_of self.now).task worker)) }
    {
        match self.tasks[worker as usize] {
            Task::Idle => Ok(self.choose_claim(setting.workers, worker)),
            task => match setting.next(task, self.calls[worker as usize]) {
                Some(act) => Ok(Some(self.event_of::<B, V>(alloc, setting, worker, act, work)?)),
                None => Ok(None),
            },
        }
    }

    /// The event, by status, of a worker that does not own the flag.
    #[tactic(auto, unfolding(crate::specs::Abstraction::state_of))]
    #[inline(always)]
    fn choose_by_status<B: WorkBrand, V: WorkValue>(
        &self,
        alloc: Global,
        setting: &Setting,
        worker: u32,
        work: &V,
    ) -> Result<Option<Event>, AllocError>
        requires fits { Represents B.work setting.now self.now }
        requires looks { CanChoose setting.now self.now }
        requires worker_in { worker < setting.now.workers }
        requires meaning { V.meaning work.now ≡ B.work }
        requires has { CanGiveDue V.has work.now setting.now self.now worker }
        ensures { IfOk result (λ event. event ≡ choice_by (job_with B.work setting.now) (core_state_of self.now) worker
            ((state_of self.now).status worker)) }
    {
        match self.statuses[worker as usize] {
            Status::Free => self.choose_free::<B, V>(alloc, setting, worker, work),
            Status::Pending => Ok(self.choose_pending()),
            Status::Executing => Ok(None),
            Status::Served(receipt) => Ok(Some(Event::Leave(receipt))),
        }
    }

    /// Cheap check: true implies that the worker has no event; false says nothing. True for an idle worker while all
    /// ready lists are empty.
    ///
    /// Memory: none.
    #[inline(always)]
    #[tactic(auto, unfolding(crate::specs::Abstraction::state_of, crate::specs::Abstraction::ready_of))]
    pub fn is_certainly_idle<B: WorkBrand>(&self, setting: &Setting, worker: u32) -> bool
        requires worker_in { worker < setting.now.workers }
        requires tasks_in { length self.now.tasks.items ≡ setting.now.workers }
        requires statuses_in { length self.now.statuses.items ≡ setting.now.workers }
        ensures { IsTrue result → choice (job_with B.work setting.now) (core_state_of self.now) worker ≡ None }
    {
        if !self.nothing_to_claim(setting.workers, worker) {
            return false;
        }
        if let Some(hold) = &self.hold {
            if hold.worker == worker {
                return false;
            }
        }
        match self.statuses[worker as usize] {
            Status::Free => match self.tasks[worker as usize] {
                Task::Idle => true,
                _ => false,
            },
            _ => false,
        }
    }

    /// The event of a worker's turn, or `None` if the worker can do nothing in this state. `work` gives the value of the
    /// work that is due, if some is; `B` says what the leaves of work compute.
    ///
    /// Memory: what the work takes.
    #[tactic(auto, unfolding(crate::specs::Abstraction::state_of))]
    #[inline(always)]
    pub fn choose<B: WorkBrand, V: WorkValue>(
        &self,
        alloc: Global,
        setting: &Setting,
        worker: u32,
        work: &V,
    ) -> Result<Option<Event>, AllocError>
        requires fits { Represents B.work setting.now self.now }
        requires looks { CanChoose setting.now self.now }
        requires worker_in { worker < setting.now.workers }
        requires meaning { V.meaning work.now ≡ B.work }
        requires has { CanGiveDue V.has work.now setting.now self.now worker }
        ensures { IfOk result (λ event. event ≡ choice (job_with B.work setting.now) (core_state_of self.now) worker) }
    {
        match &self.hold {
            Some(hold) if hold.worker == worker => Ok(self.choose_holding(setting, hold)),
            _ => self.choose_by_status::<B, V>(alloc, setting, worker, work),
        }
    }
}
