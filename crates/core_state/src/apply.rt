//! Applying an event to the stored state: one function for each rule of the model, and the dispatch to it.
ghost use Rattle.std.specs.Prelude.{◌≡◌, ◌<◌, ℕ, IfOk};
ghost use Rattle.core_model.specs.Settings.{job_with};
ghost use Rattle.core_model.specs.Events.{Needs, Does};
ghost use Rattle.core_model.specs.Ranges.{IsInRange};
ghost use Rattle.core_state.specs.Code.CallEvents.{IsCallEvent};
ghost use Rattle.ready_lists.specs.Ends.{IsAtOneEnd};
ghost use Rattle.core_state.specs.Abstraction.{state_of, ready_of};
ghost use Rattle.core_state.specs.Code.Sizes.{SameSizes};
ghost use Rattle.core_model.specs.Lists.{ready_after};
ghost use Rattle.core_model.specs.declared.event.Event.TheVariants.{Claim};
ghost use Rattle.core_state.specs.Code.Representation.{Represents};

mod calls;
mod nodes;
mod publish;

use crate::state::State;
use core_model::{Event, Setting, Task};
use leaf_work::WorkBrand;
use std::alloc::{AllocError, Global};

impl State {
    /// Applies an event of a call or of the flag. After an `AllocError` the event may be half done.
    #[inline(always)]
    fn apply_to_calls<B: WorkBrand>(
        &mut self,
        alloc: Global,
        setting: &Setting,
        worker: u32,
        event: Event,
    ) -> Result<(), AllocError>
        requires kind { IsCallEvent event }
        requires fits { Represents B.work setting.now self.old }
        requires worker_in { worker < setting.now.workers }
        requires in_range { IsInRange (job_with B.work setting.now).plan.count setting.now.workers event }
        requires needs { Needs (job_with B.work setting.now) (state_of self.old) worker event }
        ensures sizes { IfOk result (λ _. SameSizes self.old self.new) }
        ensures event { IfOk result
            (λ _. Does (job_with B.work setting.now) (state_of self.old) worker event (state_of self.new)) }
        ensures lists { IfOk result (λ _. ready_of self.new
            ≡ ready_after worker event (ready_of self.old)) }
    {
        match event {
            Event::Post { .. } => self.post(worker),
            Event::Win => self.win(worker),
            Event::Take(other) => self.take(other),
            Event::Publish => self.publish::<B>(alloc, setting, worker)?,
            Event::Answer {
                worker: other,
                receipt,
            } => self.answer(other, receipt),
            Event::Release => self.release(),
            Event::Leave(receipt) => self.leave(worker, receipt),
            _ => unreachable!(),
        }
        Ok(())
    }

    /// Applies an event of a worker. After an `AllocError` the event may be half done.
    #[inline(always)]
    pub fn apply<B: WorkBrand>(
        &mut self,
        alloc: Global,
        setting: &Setting,
        worker: u32,
        event: Event,
    ) -> Result<(), AllocError>
        requires fits { Represents B.work setting.now self.old }
        requires worker_in { worker < setting.now.workers }
        requires in_range { IsInRange (job_with B.work setting.now).plan.count setting.now.workers event }
        requires needs { Needs (job_with B.work setting.now) (state_of self.old) worker event }
        requires at_end { (n : ℕ) → event ≡ Claim n → IsAtOneEnd n (ready_of self.old) }
        ensures sizes { IfOk result (λ _. SameSizes self.old self.new) }
        ensures event { IfOk result
            (λ _. Does (job_with B.work setting.now) (state_of self.old) worker event (state_of self.new)) }
        ensures lists { IfOk result (λ _. ready_of self.new
            ≡ ready_after worker event (ready_of self.old)) }
    {
        match event {
            Event::Claim(node) => self.claim(worker, node),
            Event::Start(node) => self.start(worker, node),
            Event::OpenParRight { parent, right, .. } => {
                self.open(worker, right, Task::Half(parent))?;
            }
            Event::OpenParLeft { left, .. } => self.open(worker, left, Task::Idle)?,
            Event::OpenSeqLeft { left, .. } => self.open(worker, left, Task::Idle)?,
            Event::OpenSeqRight { right, .. } => self.open(worker, right, Task::Idle)?,
            Event::Keep { node, start, value } => self.keep(worker, node, start, value),
            Event::End { node, start } => self.end(worker, node, start),
            Event::FinishLeaf { node, start, end } => self.finish_leaf(worker, node, start, end),
            Event::FinishSeq { parent, .. } => self.finish_block(worker, parent),
            Event::FinishPar { parent, .. } => self.finish_block(worker, parent),
            Event::ArriveFirst { parent, .. } => self.arrive(worker, parent, 1, Task::Idle),
            Event::ArriveSecond { parent, .. } => {
                self.arrive(worker, parent, 2, Task::Handed(parent));
            }
            _ => self.apply_to_calls::<B>(alloc, setting, worker, event)?,
        }
        Ok(())
    }
}
