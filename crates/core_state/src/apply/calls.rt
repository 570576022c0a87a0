//! The writes of the events of calls and of the flag: post, win, take, answer, release and leave.
ghost use Rattle.std.specs.Prelude.{◌≡◌, ◌<◌, length, None, Some, IfSome, IsSome, if◌then◌else◌};
ghost use Rattle.limits.specs.declared.TheConstants.{MOST_WORKERS};
ghost use Rattle.core_model.specs.State.{put};
ghost use Rattle.core_state.specs.Abstraction.{state_of, ready_of};
ghost use Rattle.core_state.specs.Code.Sizes.{SameSizes};
ghost use Rattle.core_model.specs.Events.{is_pending as status_pending, new_hold, looked as hold_looked, answered as hold_answered};
ghost use Rattle.core_model.specs.declared.status.Status.TheVariants.{Free, Pending, Executing, Served};
ghost use Rattle.core_model.specs.declared.status.CallState.TheVariants.{Out, Got};

use crate::hold::Hold;
use crate::state::State;
use core_model::{CallState, Receipt, Status};

/// Whether the status is `Pending`: the call is posted and not taken.
fn is_pending(status: Status) -> bool
    ensures { result ≡ status_pending status }
{
    match status {
        Status::Pending => true,
        _ => false,
    }
}

impl State {
    /// `Post`: the worker's call becomes pending.
    #[tactic(auto, using(ready_lists::proofs::PlaceLemmas::Written::at_written), unfolding(crate::specs::Abstraction::state_of, crate::specs::Abstraction::ready_of))]
    pub(crate) fn post(&mut self, worker: u32)
        requires status_in { worker < length self.old.statuses.items }
        requires call_in { worker < length self.old.calls.items }
        ensures sizes { SameSizes self.old self.new }
        ensures event { state_of self.new ≡ record (state_of self.old) {
          status = put (state_of self.old).status worker Pending;
          call = put (state_of self.old).call worker Out;
        } }
        ensures lists { ready_of self.new ≡ ready_of self.old }
    {
        self.statuses[worker as usize] = Status::Pending;
        self.calls[worker as usize] = CallState::Out;
    }

    /// `Win`: the worker owns the flag, with a new hold.
    #[tactic(auto, unfolding(crate::specs::Abstraction::state_of, crate::specs::Abstraction::ready_of))]
    pub(crate) fn win(&mut self, worker: u32)
        ensures sizes { SameSizes self.old self.new }
        ensures event { state_of self.new
            ≡ record (state_of self.old) { hold = Some (new_hold worker) } }
        ensures lists { ready_of self.new ≡ ready_of self.old }
    {
        self.hold = Some(Hold::of(worker));
    }

    /// `Take`: the flag's owner looks at the worker `other` and takes its call if that is pending.
    #[tactic(auto, using(ready_lists::proofs::PlaceLemmas::Written::at_written), unfolding(crate::specs::Abstraction::state_of, crate::specs::Abstraction::ready_of))]
    pub(crate) fn take(&mut self, other: u32)
        requires status_in { other < length self.old.statuses.items }
        requires other_in { other < MOST_WORKERS }
        requires held { IsSome self.old.hold }
        requires room { IfSome self.old.hold (λ h. h.looks < MOST_WORKERS) }
        ensures sizes { SameSizes self.old self.new }
        ensures event { state_of self.new ≡ record (state_of self.old) {
          status = if status_pending ((state_of self.old).status other)
              then put (state_of self.old).status other Executing else (state_of self.old).status;
          hold = hold_looked (state_of self.old).hold
              (status_pending ((state_of self.old).status other)) other;
        } }
        ensures lists { ready_of self.new ≡ ready_of self.old }
    {
        let Some(hold) = &mut self.hold else {
            unreachable!()
        };
        let takes = is_pending(self.statuses[other as usize]);
        hold.look(other, takes);
        if takes {
            self.statuses[other as usize] = Status::Executing;
        }
    }

    /// `Answer`: the worker `other` gets its receipt.
    #[tactic(auto, using(ready_lists::proofs::PlaceLemmas::Written::at_written), unfolding(crate::specs::Abstraction::state_of, crate::specs::Abstraction::ready_of))]
    pub(crate) fn answer(&mut self, other: u32, receipt: Receipt)
        requires status_in { other < length self.old.statuses.items }
        requires other_in { other < MOST_WORKERS }
        requires held { IsSome self.old.hold }
        ensures sizes { SameSizes self.old self.new }
        ensures event { state_of self.new ≡ record (state_of self.old) {
          status = put (state_of self.old).status other (Served receipt);
          hold = hold_answered (state_of self.old).hold other;
        } }
        ensures lists { ready_of self.new ≡ ready_of self.old }
    {
        let Some(hold) = &mut self.hold else {
            unreachable!()
        };
        self.statuses[other as usize] = Status::Served(receipt);
        hold.answer(other);
    }

    /// `Release`: the flag is free again.
    #[tactic(auto, unfolding(crate::specs::Abstraction::state_of, crate::specs::Abstraction::ready_of))]
    pub(crate) fn release(&mut self)
        ensures sizes { SameSizes self.old self.new }
        ensures event { state_of self.new ≡ record (state_of self.old) { hold = None } }
        ensures lists { ready_of self.new ≡ ready_of self.old }
    {
        self.hold = None;
    }

    /// `Leave`: the worker's status is free again, and its call has the receipt.
    #[tactic(auto, using(ready_lists::proofs::PlaceLemmas::Written::at_written), unfolding(crate::specs::Abstraction::state_of, crate::specs::Abstraction::ready_of))]
    pub(crate) fn leave(&mut self, worker: u32, receipt: Receipt)
        requires status_in { worker < length self.old.statuses.items }
        requires call_in { worker < length self.old.calls.items }
        ensures sizes { SameSizes self.old self.new }
        ensures event { state_of self.new ≡ record (state_of self.old) {
          status = put (state_of self.old).status worker Free;
          call = put (state_of self.old).call worker (Got receipt);
        } }
        ensures lists { ready_of self.new ≡ ready_of self.old }
    {
        self.statuses[worker as usize] = Status::Free;
        self.calls[worker as usize] = CallState::Got(receipt);
    }
}
