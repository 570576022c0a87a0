//! The choice of a worker that claims a node, the event of a next act, and the value of a leaf of work.
ghost use Rattle.std.specs.Prelude.{ℕ, ◌≡◌, ◌<◌, ◌≤◌, None, Some, IfOk, IsTrue};
ghost use Rattle.limits.specs.declared.TheConstants.{MOST_WORKERS};
ghost use Rattle.core_model.specs.Next.{event_in, next_act};
ghost use Rattle.core_model.specs.Operations.{number_from};
ghost use Rattle.core_model.specs.Settings.{job_of, job_with};
ghost use Rattle.core_state.specs.Abstraction.{state_of, ready_of};
ghost use Rattle.core_state.specs.Code.Lookups.{CanChoose, CanGiveDue, IsAtWork, claim_choice};
ghost use Rattle.core_state.specs.Code.Representation.{Represents};
ghost use Rattle.core_state.specs.WorkDue.{work_due};

use crate::state::State;
use core_model::laws::book::started_leaf_has_its_source;
use core_model::{Event, Next, Setting, Task};
use leaf_work::{WorkBrand, WorkValue};
use seq_objects::value;
use sp_order::low_bits;
use std::alloc::{AllocError, Global};

impl State {
    /// The event of an idle worker: it claims the newest node of its own list, or else steals the oldest node of the
    /// first non-empty list after its own, in cyclic order of the workers. If all lists are empty it inspects none of
    /// them; otherwise it inspects each at most once.
    #[tactic(auto, unfolding(crate::specs::Abstraction::ready_of))]
    pub(crate) fn choose_claim(&self, workers: u32, worker: u32) -> Option<Event>
        requires worker_in { worker < workers }
        requires few { workers ≤ MOST_WORKERS }
        ensures { result
            ≡ claim_choice workers (ready_of self.now) worker (ready_of self.now worker) }
    {
        if self.ready.are_empty() {
            return None;
        }
        if let Some(node) = self.ready.of(worker).last() {
            return Some(Event::Claim(*node));
        }
        for k in 1..workers {
            let other = (worker + k) % workers;
            if let Some(node) = self.ready.of(other).first() {
                return Some(Event::Claim(*node));
            }
        }
        None
    }

    /// Whether all ready lists are empty, so that an idle worker has nothing to claim.
    #[inline(always)]
    pub(crate) fn nothing_to_claim(&self, workers: u32, worker: u32) -> bool
        ensures { IsTrue result
            → claim_choice workers (ready_of self.now) worker (ready_of self.now worker) ≡ None }
    {
        self.ready.are_empty()
    }

    /// The number of sides that have arrived at a parallel block.
    #[tactic(auto, unfolding(crate::specs::Abstraction::state_of))]
    fn mark_of(&self, parent: u32) -> u32
        ensures { result ≡ (state_of self.now).mark parent }
    {
        match self.marks.get(parent as usize) {
            Some(mark) => *mark,
            None => 0,
        }
    }

    /// The value of a started leaf of work, by `work`.
    #[inline(always)]
    fn worked_value<B: WorkBrand, V: WorkValue>(
        &self,
        alloc: Global,
        setting: &Setting,
        leaf: u32,
        steps: u32,
        work: &V,
    ) -> Result<u64, AllocError>
        requires fits { Represents B.work setting.now self.now }
        requires works { (worker : ℕ) × IsAtWork (job_with B.work setting.now) (state_of self.now) worker leaf steps }
        requires meaning { V.meaning work.now ≡ B.work }
        requires has { (number : ℕ)
            → number_from (state_of self.now).book steps ((job_with B.work setting.now).source leaf) ≡ Some number
            → V.has work.now number }
        ensures { IfOk result (λ value. (number : ℕ)
            → number_from (state_of self.now).book steps ((job_with B.work setting.now).source leaf) ≡ Some number
            → value ≡ B.work number) }
    {
        let number = self.number_of::<B>(setting, leaf, steps);
        Ok(u64::from(work.value(alloc, number)?))
    }

    /// The event that the worker's next act is. `work` gives the value of the work that the act asks for, if it asks for
    /// some.
    #[inline(always)]
    pub(crate) fn event_of<B: WorkBrand, V: WorkValue>(
        &self,
        alloc: Global,
        setting: &Setting,
        worker: u32,
        act: Next,
        work: &V,
    ) -> Result<Event, AllocError>
        requires fits { Represents B.work setting.now self.now }
        requires looks { CanChoose setting.now self.now }
        requires next { next_act (job_of setting.now) ((state_of self.now).task worker)
            ((state_of self.now).call worker) ≡ Some act }
        requires meaning { V.meaning work.now ≡ B.work }
        requires has { CanGiveDue V.has work.now setting.now self.now worker }
        ensures { IfOk result (λ event. event ≡ event_in (job_with B.work setting.now) (state_of self.now) act) }
    {
        let event = match act {
            Next::Start { node, .. } => Event::Start(node),
            Next::Open { event, .. } => event,
            Next::Spin {
                node,
                start,
                leaf,
                steps,
            } => Event::Keep {
                node,
                start,
                value: self.worked_value::<B, V>(alloc, setting, leaf, steps, work)?,
            },
            Next::Call { node, start, .. } => Event::Post { node, start },
            Next::Got { node, start, reply } => Event::Keep {
                node,
                start,
                value: value(reply),
            },
            Next::End { node, start } => Event::End { node, start },
            Next::Finish { event, .. } => event,
            Next::Arrive {
                parent,
                left,
                right,
                side,
            } => {
                if self.mark_of(parent) == 0 {
                    Event::ArriveFirst {
                        parent,
                        left,
                        right,
                        side,
                    }
                } else {
                    Event::ArriveSecond {
                        parent,
                        left,
                        right,
                        side,
                    }
                }
            }
        };
        Ok(event)
    }

    /// The number of a leaf of work: its own, or, where it has a source, the low 32 bits of the source's value.
    fn number_of<B: WorkBrand>(&self, setting: &Setting, leaf: u32, steps: u32) -> u32
        requires fits { Represents B.work setting.now self.now }
        requires works { (worker : ℕ) × IsAtWork (job_with B.work setting.now) (state_of self.now) worker leaf steps }
        ensures { number_from (state_of self.now).book steps ((job_with B.work setting.now).source leaf) ≡ Some result }
    {
        started_leaf_has_its_source();
        match setting.job.source(leaf) {
            None => steps,
            Some(source) => low_bits(self.value_at::<B>(setting, source)),
        }
    }

    /// The number of the work that is due for a worker with this task, if some is.
    #[tactic(auto, unfolding(crate::specs::Abstraction::state_of))]
    fn work_of<B: WorkBrand>(&self, setting: &Setting, worker: u32, task: Task) -> Option<u32>
        requires fits { Represents B.work setting.now self.now }
        requires looks { CanChoose setting.now self.now }
        requires worker_in { worker < setting.now.workers }
        requires task { (state_of self.now).task worker ≡ task }
        ensures { result ≡ work_due (job_of setting.now) (state_of self.now).book
            task ((state_of self.now).call worker) }
    {
        match setting.next(task, self.calls[worker as usize]) {
            Some(Next::Spin { leaf, steps, .. }) => {
                Some(self.number_of::<B>(setting, leaf, steps))
            }
            _ => None,
        }
    }

    /// The number of the work that is due for a worker, if some is.
    #[tactic(auto, unfolding(crate::specs::Abstraction::state_of))]
    pub fn work_due<B: WorkBrand>(&self, setting: &Setting, worker: u32) -> Option<u32>
        requires fits { Represents B.work setting.now self.now }
        requires looks { CanChoose setting.now self.now }
        requires worker_in { worker < setting.now.workers }
        ensures { result ≡ work_due (job_of setting.now) (state_of self.now).book
            ((state_of self.now).task worker) ((state_of self.now).call worker) }
    {
        self.work_of::<B>(setting, worker, self.tasks[worker as usize])
    }
}
