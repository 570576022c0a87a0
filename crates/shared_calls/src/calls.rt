//! A call: it waits for its reply, and serves the calls that are posted if it wins the flag.
ghost use Rattle.std.specs.Prelude.{◌≡◌, ℕ, ◌+◌, ◌<◌, ◌≤◌, List, [], ◌∷◌, ◌++◌, length, map, true, false, IfOk, IfErr, IfSome, IfNone, OnOk, OnErr};
ghost use Rattle.std.specs.List.{AllByRecursion};
ghost use Rattle.shared_calls.specs.declared.view.Asked.{Asked as AskedOf};
ghost use Rattle.shared_calls.specs.declared.view.View.{View as ViewOf};
ghost use Rattle.shared_calls.specs.declared.view.Slot.TheVariants.{Vacant};
ghost use Rattle.shared_calls.specs.Logs.{StartsWith, state_after};
ghost use Rattle.shared_calls.specs.Plays.{releasing, own_calls, IsLeft};
ghost use Rattle.shared_calls.specs.Callers.{in_hand, collected, owing, HasStopped, IsAnswered, IsRefused, IsServed, IsUnserved};
ghost use Rattle.shared_calls.specs.Rule.{IsLost};
ghost use Rattle.shared_calls.specs.Views.{IsCallerOf, HasRoom, IfRefused, IfLost, number_of, made, seen, is_lost};
ghost use Rattle.limits.specs.declared.TheConstants.{MOST_WORKERS};

use crate::combined::Combined;
use crate::helper::{Alone, Helper};
use crate::shared::{Caller, Failed, Shared};
use crate::steps::Won;
use crate::view::{Slot, View};
use arrayvec::ArrayVec;
use atomic_table::Seat;
use crossbeam_utils::Backoff;
use limits::MOST_WORKERS;
use std::alloc::AllocError;
use std::sync::Wait;
use std::thread;

/// The most callers of a structure.
const MOST_CALLERS: usize = MOST_WORKERS as usize;

impl<T: Combined> Caller<T> {
    /// Whether the caller has found that the structure is lost.
    pub fn is_lost(&self) -> bool
        ensures { result ≡ is_lost self.now }
    {
        self.lost
    }
}

impl<T: Combined> Shared<T> {
    /// Room for the operations of a batch of all callers.
    fn room(&self) -> Result<Vec<T::Op>, AllocError>
        ensures { IfOk result (HasRoom self.now.callers) }
    {
        Vec::with_capacity(self.alloc, self.callers)
    }

    /// Takes the calls that are posted: their callers and their operations.
    fn collect(
        &self,
        seat: &mut Seat<Slot<T, T::Op, T::Reply>, View<T::Op, T::Reply>>,
        mut ops: Vec<T::Op>,
    ) -> (ArrayVec<u8, MOST_CALLERS>, Vec<T::Op>)
        requires table { seat.old.table_id ≡ self.now.table.shared.table_id }
        requires holds { (seat.old.me.0.to ≡ seat.old.me.0.from + 1) × (seat.old.me.0.holds ≡ true) }
        requires begins { (seat.old.me.0.looks ≡ 0) × (seat.old.me.0.taken ≡ []) × (seat.old.me.0.owed ≡ []) }
        requires slot { seat.old.me.1 ≡ (self.now.callers, Vacant) ∷ [] }
        requires room { HasRoom self.now.callers ops }
        ensures table { seat.new.table_id ≡ seat.old.table_id }
        ensures below { AllByRecursion (λ u. u < self.now.callers) result.0.items }
        ensures few { length result.1.items ≤ MOST_WORKERS }
        ensures took { (looks : ℕ) × (taken : List (AskedOf T.Op))
            × (seat.new.me ≡ (collected seat.old.me.0 looks taken, (self.now.callers, Vacant) ∷ in_hand (map (λ a. a.caller) taken)))
            × (result.0.items ≡ map (λ a. a.caller) taken) × (result.1.items ≡ map (λ a. a.op) taken) }
    {
        let mut callers = ArrayVec::new();
        for caller in 0..self.callers {
            match self.look(seat, caller) {
                Some(op) => {
                    callers.push(caller as u8);
                    ops.push_reserved(op);
                }
                None => {}
            }
        }
        (callers, ops)
    }

    /// Answers these callers, in their order.
    fn answer_all(
        &self,
        seat: &mut Seat<Slot<T, T::Op, T::Reply>, View<T::Op, T::Reply>>,
        callers: ArrayVec<u8, MOST_CALLERS>,
        replies: Vec<T::Reply>,
    )
        requires table { seat.old.table_id ≡ self.now.table.shared.table_id }
        requires holds { (seat.old.me.0.to ≡ seat.old.me.0.from + 1) × (seat.old.me.0.holds ≡ true) }
        requires owed { (map (λ e. e.caller) seat.old.me.0.owed ≡ callers.items) × (map (λ e. e.reply) seat.old.me.0.owed ≡ replies.items) }
        requires below { AllByRecursion (λ u. u < self.now.callers) callers.items }
        requires slot { (slot : _) × (seat.old.me.1 ≡ in_hand callers.items ++ slot ∷ []) }
        ensures table { seat.new.table_id ≡ seat.old.table_id }
        ensures answered { (slot : _) → seat.old.me.1 ≡ in_hand callers.items ++ slot ∷ [] → seat.new.me ≡ (owing seat.old.me.0 [], slot ∷ []) }
    {
        let numbers = callers.as_slice();
        let mut i = 0;
        for reply in replies {
            self.answer(seat, numbers[i] as usize, reply);
            i += 1;
        }
    }

    /// Serves the calls that are posted as one batch.
    fn serve<R: Wait, H: Helper<T>>(
        &self,
        rt: &R,
        helper: &mut H,
        seat: &mut Seat<Slot<T, T::Op, T::Reply>, View<T::Op, T::Reply>>,
        structure: T,
        ops: Vec<T::Op>,
    ) -> Result<(), AllocError>
        requires table { seat.old.table_id ≡ self.now.table.shared.table_id }
        requires holds { (seat.old.me.0.to ≡ seat.old.me.0.from + 1) × (seat.old.me.0.holds ≡ true) }
        requires begins { (seat.old.me.0.looks ≡ 0) × (seat.old.me.0.taken ≡ []) × (seat.old.me.0.owed ≡ []) }
        requires slot { seat.old.me.1 ≡ (self.now.callers, Vacant) ∷ [] }
        requires content { T.content structure ≡ state_after T.object seat.old.me.0.log }
        requires room { HasRoom self.now.callers ops }
        ensures table { seat.new.table_id ≡ seat.old.table_id }
        ensures ok { OnOk result (seat.new.me ≡ (releasing seat.old.me.0, [])) }
        ensures err { OnErr result ((looks : ℕ) × (taken : List (AskedOf T.Op)) × (slots : _) × (seat.new.me ≡ (collected seat.old.me.0 looks taken, slots))) }
        ensures failed { OnErr result (IsLost T.object T.content T.fails seat.old.me.0.log) }
    {
        let (callers, ops) = self.collect(seat, ops);
        let (structure, replies) = helper.serve(rt, self.alloc, structure, ops)?;
        let replies = self.publish(seat, structure, replies);
        self.answer_all(seat, callers, replies);
        self.release(seat);
        Ok(())
    }

    /// Takes the reply to a call that was served.
    fn take<R: Wait>(
        &self,
        rt: &R,
        seat: &mut Seat<Slot<T, T::Op, T::Reply>, View<T::Op, T::Reply>>,
        number: usize,
    ) -> T::Reply
        requires table { seat.old.table_id ≡ self.now.table.shared.table_id }
        requires own { (seat.old.me.0.from ≡ number) × (seat.old.me.0.to ≡ number + 1) × (number < self.now.callers) }
        requires settled { (seat.old.me.0.holds ≡ false) × (seat.old.me.1 ≡ []) }
        ensures table { seat.new.table_id ≡ seat.old.table_id }
        ensures left { (w : ViewOf T.Op T.Reply) × IsLeft T.object seat.old.me.0 result w × (seat.new.me ≡ (w, (number, Vacant) ∷ [])) }
    {
        for _ in rt.forever() {
            if let Some(reply) = self.leave(seat, number) {
                return reply;
            }
        }
        unreachable!()
    }

    /// Takes the reply, if there is one, of a caller that found the structure lost.
    fn stop(
        &self,
        seat: &mut Seat<Slot<T, T::Op, T::Reply>, View<T::Op, T::Reply>>,
        number: usize,
    ) -> Option<T::Reply>
        requires table { seat.old.table_id ≡ self.now.table.shared.table_id }
        requires own { (seat.old.me.0.from ≡ number) × (seat.old.me.0.to ≡ number + 1) × (number < self.now.callers) }
        requires settled { (seat.old.me.0.holds ≡ false) × (seat.old.me.0.lost ≡ true) }
        ensures table { seat.new.table_id ≡ seat.old.table_id }
        ensures stopped { HasStopped number seat.new.me.0 × (seat.new.me.0.log ≡ seat.old.me.0.log) }
        ensures last { IfSome result (λ reply. IsAnswered T.object seat.old.me.0 reply seat.new.me.0) }
        ensures none { IfNone result (IsRefused T.object seat.old.me.0 seat.new.me.0) }
    {
        self.leave(seat, number)
    }

    /// Serves a batch, and takes the reply.
    fn lead<R: Wait, H: Helper<T>>(
        &self,
        rt: &R,
        helper: &mut H,
        seat: &mut Seat<Slot<T, T::Op, T::Reply>, View<T::Op, T::Reply>>,
        number: usize,
        structure: T,
        ops: Vec<T::Op>,
    ) -> Result<T::Reply, Option<T::Reply>>
        requires table { seat.old.table_id ≡ self.now.table.shared.table_id }
        requires own { (seat.old.me.0.from ≡ number) × (seat.old.me.0.to ≡ number + 1) × (number < self.now.callers) }
        requires holds { seat.old.me.0.holds ≡ true }
        requires begins { (seat.old.me.0.looks ≡ 0) × (seat.old.me.0.taken ≡ []) × (seat.old.me.0.owed ≡ []) }
        requires slot { seat.old.me.1 ≡ (self.now.callers, Vacant) ∷ [] }
        requires content { T.content structure ≡ state_after T.object seat.old.me.0.log }
        requires room { HasRoom self.now.callers ops }
        ensures table { seat.new.table_id ≡ seat.old.table_id }
        ensures left { IfOk result (λ reply. (w : ViewOf T.Op T.Reply) × IsLeft T.object (releasing seat.old.me.0) reply w × (seat.new.me ≡ (w, (number, Vacant) ∷ []))) }
        ensures lost { IfErr result (λ reply. HasStopped number seat.new.me.0 × IsLost T.object T.content T.fails seat.new.me.0.log
            × IfSome reply (λ reply. IsAnswered T.object seat.old.me.0 reply seat.new.me.0) × IfNone reply (IsRefused T.object seat.old.me.0 seat.new.me.0)) }
    {
        match self.serve(rt, helper, seat, structure, ops) {
            Ok(()) => Ok(self.take(rt, seat, number)),
            Err(AllocError) => {
                self.lose(seat);
                Err(self.stop(seat, number))
            }
        }
    }

    /// Waits for the reply to the call that is posted: it serves the batch itself, or another caller does.
    fn wait<R: Wait, H: Helper<T>>(
        &self,
        rt: &R,
        helper: &mut H,
        seat: &mut Seat<Slot<T, T::Op, T::Reply>, View<T::Op, T::Reply>>,
        number: usize,
        ops: Vec<T::Op>,
    ) -> Result<T::Reply, Option<T::Reply>>
        requires table { seat.old.table_id ≡ self.now.table.shared.table_id }
        requires own { (seat.old.me.0.from ≡ number) × (seat.old.me.0.to ≡ number + 1) × (number < self.now.callers) }
        requires settled { (seat.old.me.0.holds ≡ false) × (seat.old.me ≡ (releasing seat.old.me.0, [])) }
        requires room { HasRoom self.now.callers ops }
        ensures table { seat.new.table_id ≡ seat.old.table_id }
        ensures left { IfOk result (λ reply. (w : ViewOf T.Op T.Reply) × IsLeft T.object seat.old.me.0 reply w × (seat.new.me ≡ (w, (number, Vacant) ∷ []))) }
        ensures lost { IfErr result (λ reply. HasStopped number seat.new.me.0 × IsLost T.object T.content T.fails seat.new.me.0.log
            × IfSome reply (λ reply. IsAnswered T.object seat.old.me.0 reply seat.new.me.0) × IfNone reply (IsRefused T.object seat.old.me.0 seat.new.me.0)) }
    {
        let backoff = Backoff::new();
        let mut looks = 0;
        for _ in rt.forever() {
            if self.table.shared.peek(number) == 2 {
                return Ok(self.take(rt, seat, number));
            }
            match self.win(seat, number) {
                Won::Flag(structure) => {
                    return self.lead(rt, helper, seat, number, structure, ops);
                }
                Won::Held(holder) => {
                    if helper.help(holder) {
                        backoff.reset();
                        looks = 0;
                    } else if looks < 4 {
                        backoff.spin();
                        looks += 1;
                    } else {
                        thread::yield_now();
                    }
                }
                Won::Lost => return Err(self.stop(seat, number)),
            }
        }
        unreachable!()
    }

    /// Calls the structure, and waits for the reply.
    ///
    /// Memory: proportional to the callers; where this caller serves a batch, what the structure takes for it.
    pub fn call<R: Wait>(
        &self,
        rt: &R,
        caller: &mut Caller<T>,
        op: T::Op,
    ) -> Result<T::Reply, Failed<T::Op, T::Reply>>
        requires caller { IsCallerOf self.now caller.old }
        requires sound { is_lost caller.old ≡ false }
        ensures own { IsCallerOf self.now caller.new × (number_of caller.new ≡ number_of caller.old) }
        ensures served { IfOk result (λ reply. IsServed T.object (number_of caller.old) (made caller.old) (seen caller.old) op reply (made caller.new) (seen caller.new)) }
        ensures stays { OnOk result (is_lost caller.new ≡ false) }
        ensures refused { IfErr result (IfRefused (λ same. (same ≡ op) × (is_lost caller.new ≡ false) × (made caller.new ≡ made caller.old) × (seen caller.new ≡ seen caller.old))) }
        ensures lost { IfErr result (IfLost (λ reply. is_lost caller.new ≡ true)) }
        ensures last { IfErr result (IfLost (λ last. IfSome last (λ reply. IsServed T.object (number_of caller.old) (made caller.old) (seen caller.old) op reply (made caller.new) (seen caller.new)))) }
        ensures unserved { IfErr result (IfLost (λ last. IfNone last (IsUnserved T.object (number_of caller.old) (made caller.old) (seen caller.old) (made caller.new) (seen caller.new)))) }
        ensures cause { IfErr result (IfLost (λ last. (log : _) × StartsWith log (seen caller.new) × IsLost T.object T.content T.fails log)) }
    {
        self.call_with(rt, &mut Alone, caller, op)
    }

    /// Calls the structure, and waits for the reply. The helper serves the batches of the caller's turns, and helps the
    /// callers that serve others meanwhile.
    ///
    /// Memory: as `call`, and what the helper takes.
    pub fn call_with<R: Wait, H: Helper<T>>(
        &self,
        rt: &R,
        helper: &mut H,
        caller: &mut Caller<T>,
        op: T::Op,
    ) -> Result<T::Reply, Failed<T::Op, T::Reply>>
        requires caller { IsCallerOf self.now caller.old }
        requires sound { is_lost caller.old ≡ false }
        ensures own { IsCallerOf self.now caller.new × (number_of caller.new ≡ number_of caller.old) }
        ensures served { IfOk result (λ reply. IsServed T.object (number_of caller.old) (made caller.old) (seen caller.old) op reply (made caller.new) (seen caller.new)) }
        ensures stays { OnOk result (is_lost caller.new ≡ false) }
        ensures refused { IfErr result (IfRefused (λ same. (same ≡ op) × (is_lost caller.new ≡ false) × (made caller.new ≡ made caller.old) × (seen caller.new ≡ seen caller.old))) }
        ensures lost { IfErr result (IfLost (λ reply. is_lost caller.new ≡ true)) }
        ensures last { IfErr result (IfLost (λ last. IfSome last (λ reply. IsServed T.object (number_of caller.old) (made caller.old) (seen caller.old) op reply (made caller.new) (seen caller.new)))) }
        ensures unserved { IfErr result (IfLost (λ last. IfNone last (IsUnserved T.object (number_of caller.old) (made caller.old) (seen caller.old) (made caller.new) (seen caller.new)))) }
        ensures cause { IfErr result (IfLost (λ last. (log : _) × StartsWith log (seen caller.new) × IsLost T.object T.content T.fails log)) }
    {
        let ops = match self.room() {
            Ok(ops) => ops,
            Err(AllocError) => return Err(Failed::Refused(op)),
        };
        self.post(&mut caller.seat, caller.number, op);
        let served = self.wait(rt, helper, &mut caller.seat, caller.number, ops);
        match served {
            Ok(reply) => Ok(reply),
            Err(last) => {
                caller.lost = true;
                Err(Failed::Lost(last))
            }
        }
    }
}
