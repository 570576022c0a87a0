//! The steps of a call, each of which is one event of the rule.
ghost use Rattle.std.specs.Prelude.{◌≡◌, ℕ, ◌+◌, ◌<◌, ◌≤◌, List, [], ◌∷◌, ◌++◌, map, true, false, IfSome, IfNone};
ghost use Rattle.atomic_table.specs.Table.{rest};
ghost use Rattle.shared_calls.specs.declared.view.Entry.{Entry as EntryOf};
ghost use Rattle.shared_calls.specs.declared.view.View.{View as ViewOf};
ghost use Rattle.shared_calls.specs.declared.view.Request.TheVariants.{Nothing, Asks};
ghost use Rattle.shared_calls.specs.declared.view.Slot.TheVariants.{Vacant, Whole as WholeOf};
ghost use Rattle.shared_calls.specs.declared.steps.Won.TheVariants.{Flag, Held, Lost};
ghost use Rattle.shared_calls.specs.Serial.{IsServedInSomeOrder};
ghost use Rattle.shared_calls.specs.Logs.{entry, state_after};
ghost use Rattle.shared_calls.specs.Rule.{IsLost};
ghost use Rattle.shared_calls.specs.Plays.{with_request, found_lost, winning, taking, publishing, answering, releasing, losing, IsLeft, IsNotServed};

use crate::combined::Combined;
use crate::rule::{Answer, Leave, Look, Lose, Post, Publish, Release, Win};
use crate::shared::Shared;
use crate::view::{Slot, View};
use atomic_table::Seat;

/// What a try to win the flag gives.
pub(crate) enum Won<T> {
    Flag(T),
    Held(usize),
    Lost,
}

impl<T: Combined> Shared<T> {
    /// Posts a call.
    pub(crate) fn post(
        &self,
        seat: &mut Seat<Slot<T, T::Op, T::Reply>, View<T::Op, T::Reply>>,
        number: usize,
        op: T::Op,
    )
        requires table { seat.old.table_id ≡ self.now.table.shared.table_id }
        requires own { (seat.old.me.0.from ≡ number) × (seat.old.me.0.to ≡ number + 1) × (number < self.now.callers) }
        requires idle { seat.old.me.0.holds ≡ false }
        requires nothing { (seat.old.me.0.request ≡ Nothing) × (seat.old.me.1 ≡ (number, Vacant) ∷ []) }
        ensures table { seat.new.table_id ≡ seat.old.table_id }
        ensures posted { seat.new.me ≡ (with_request (Asks op) seat.old.me.0, []) }
    {
        let shared = &self.table.shared;
        drop(shared.exchange(seat, number, Slot::Posted(op)));
        shared.store::<Post>(seat, number, 1);
    }

    /// Takes the reply, if it is there.
    pub(crate) fn leave(
        &self,
        seat: &mut Seat<Slot<T, T::Op, T::Reply>, View<T::Op, T::Reply>>,
        number: usize,
    ) -> Option<T::Reply>
        requires table { seat.old.table_id ≡ self.now.table.shared.table_id }
        requires own { (seat.old.me.0.from ≡ number) × (seat.old.me.0.to ≡ number + 1) × (number < self.now.callers) }
        requires idle { seat.old.me.0.holds ≡ false }
        ensures table { seat.new.table_id ≡ seat.old.table_id }
        ensures left { IfSome result (λ reply. (w : ViewOf T.Op T.Reply) × IsLeft T.object seat.old.me.0 reply w
            × (seat.new.me ≡ (w, (number, Vacant) ∷ seat.old.me.1))) }
        ensures stays { IfNone result ((seat.new.me ≡ seat.old.me) × (seat.old.me.0.lost ≡ true → IsNotServed T.object seat.old.me.0)) }
    {
        let shared = &self.table.shared;
        if shared.compare_exchange::<Leave<T>>(seat, number, 2, 0) != 2 {
            return None;
        }
        match shared.exchange(seat, number, Slot::Vacant) {
            Slot::Answered(reply) => Some(reply),
            _ => unreachable!(),
        }
    }

    /// Wins the flag, if a look finds it free.
    pub(crate) fn win(
        &self,
        seat: &mut Seat<Slot<T, T::Op, T::Reply>, View<T::Op, T::Reply>>,
        number: usize,
    ) -> Won<T>
        requires table { seat.old.table_id ≡ self.now.table.shared.table_id }
        requires own { (seat.old.me.0.from ≡ number) × (seat.old.me.0.to ≡ number + 1) × (number < self.now.callers) }
        requires idle { seat.old.me.0.holds ≡ false }
        requires bare { seat.old.me.1 ≡ [] }
        ensures table { seat.new.table_id ≡ seat.old.table_id }
        ensures won { (t : T) → result ≡ Flag t → (log : List (EntryOf T.Op T.Reply)) × (T.content t ≡ state_after T.object log)
            × (seat.new.me ≡ (winning seat.old.me.0 log, (self.now.callers, Vacant) ∷ [])) }
        ensures held { (holder : ℕ) → result ≡ Held holder → seat.new.me ≡ seat.old.me }
        ensures lost { result ≡ Lost → (log : List (EntryOf T.Op T.Reply)) × IsLost T.object T.content T.fails log × (seat.new.me ≡ (found_lost seat.old.me.0 log, [])) }
    {
        let shared = &self.table.shared;
        let flag = self.callers;
        let lost = flag as u64 + 1;
        let seen = shared.peek(flag);
        if seen != 0 && seen != lost {
            return Won::Held(seen as usize - 1);
        }
        let found = shared.compare_exchange::<Win<T>>(seat, flag, 0, number as u64 + 1);
        if found == lost {
            return Won::Lost;
        }
        if found != 0 {
            return Won::Held(found as usize - 1);
        }
        match shared.exchange(seat, flag, Slot::Vacant) {
            Slot::Whole(structure, _) => Won::Flag(structure),
            _ => unreachable!(),
        }
    }

    /// Looks at a caller, and takes its call, if one is posted.
    pub(crate) fn look(
        &self,
        seat: &mut Seat<Slot<T, T::Op, T::Reply>, View<T::Op, T::Reply>>,
        caller: usize,
    ) -> Option<T::Op>
        requires table { seat.old.table_id ≡ self.now.table.shared.table_id }
        requires holds { (seat.old.me.0.to ≡ seat.old.me.0.from + 1) × (seat.old.me.0.holds ≡ true) }
        requires next { (caller < self.now.callers) × (seat.old.me.0.looks ≤ caller) × (seat.old.me.0.owed ≡ []) }
        ensures table { seat.new.table_id ≡ seat.old.table_id }
        ensures took { IfSome result (λ op. seat.new.me ≡ (taking seat.old.me.0 caller op, seat.old.me.1 ++ (caller, Vacant) ∷ [])) }
        ensures passed { IfNone result (seat.new.me ≡ seat.old.me) }
    {
        let shared = &self.table.shared;
        if shared.load::<Look>(seat, caller) != 1 {
            return None;
        }
        let content = shared.exchange(seat, caller, Slot::Vacant);
        seat.turn();
        match content {
            Slot::Posted(op) => Some(op),
            _ => unreachable!(),
        }
    }

    /// The batch counts as served. Returns its replies.
    pub(crate) fn publish(
        &self,
        seat: &mut Seat<Slot<T, T::Op, T::Reply>, View<T::Op, T::Reply>>,
        structure: T,
        replies: Vec<T::Reply>,
    ) -> Vec<T::Reply>
        requires table { seat.old.table_id ≡ self.now.table.shared.table_id }
        requires holds { (seat.old.me.0.to ≡ seat.old.me.0.from + 1) × (seat.old.me.0.holds ≡ true) }
        requires none_owed { seat.old.me.0.owed ≡ [] }
        requires slot { seat.old.me.1 ≡ (self.now.callers, Vacant) ∷ rest seat.old.me.1 }
        requires served { IsServedInSomeOrder T.object (state_after T.object seat.old.me.0.log) (map (λ a. a.op) seat.old.me.0.taken) replies.items (T.content structure) }
        ensures table { seat.new.table_id ≡ seat.old.table_id }
        ensures replies { result.items ≡ replies.items }
        ensures published { (batch : List (EntryOf T.Op T.Reply)) × (rs : _) × (T.content structure ≡ state_after T.object (seat.old.me.0.log ++ batch))
            × (seat.new.me ≡ (publishing seat.old.me.0 batch replies.items, rest seat.old.me.1 ++ (self.now.callers, WholeOf structure rs) ∷ [])) }
    {
        let shared = &self.table.shared;
        let flag = self.callers;
        drop(shared.exchange(seat, flag, Slot::Whole(structure, replies)));
        shared.load::<Publish<T>>(seat, flag);
        match shared.exchange(seat, flag, Slot::Vacant) {
            Slot::Whole(structure, replies) => {
                let whole = Slot::Whole(structure, Vec::new(self.alloc));
                drop(shared.exchange(seat, flag, whole));
                seat.turn();
                replies
            }
            _ => unreachable!(),
        }
    }

    /// Answers a caller.
    pub(crate) fn answer(
        &self,
        seat: &mut Seat<Slot<T, T::Op, T::Reply>, View<T::Op, T::Reply>>,
        caller: usize,
        reply: T::Reply,
    )
        requires table { seat.old.table_id ≡ self.now.table.shared.table_id }
        requires holds { (seat.old.me.0.to ≡ seat.old.me.0.from + 1) × (seat.old.me.0.holds ≡ true) }
        requires owed { (op : T.Op) × (more : List (EntryOf T.Op T.Reply)) × (seat.old.me.0.owed ≡ entry caller op reply ∷ more) }
        requires slot { (caller < self.now.callers) × (seat.old.me.1 ≡ (caller, Vacant) ∷ rest seat.old.me.1) }
        ensures table { seat.new.table_id ≡ seat.old.table_id }
        ensures answered { seat.new.me ≡ (answering seat.old.me.0, rest seat.old.me.1) }
    {
        let shared = &self.table.shared;
        drop(shared.exchange(seat, caller, Slot::Answered(reply)));
        shared.store::<Answer>(seat, caller, 2);
    }

    /// Gives the flag back.
    pub(crate) fn release(&self, seat: &mut Seat<Slot<T, T::Op, T::Reply>, View<T::Op, T::Reply>>)
        requires table { seat.old.table_id ≡ self.now.table.shared.table_id }
        requires holds { (seat.old.me.0.to ≡ seat.old.me.0.from + 1) × (seat.old.me.0.holds ≡ true) }
        requires done { (seat.old.me.0.taken ≡ []) × (seat.old.me.0.owed ≡ []) }
        requires slot { (t : T) × (rs : _) × (seat.old.me.1 ≡ (self.now.callers, WholeOf t rs) ∷ []) × (T.content t ≡ state_after T.object seat.old.me.0.log) }
        ensures table { seat.new.table_id ≡ seat.old.table_id }
        ensures released { seat.new.me ≡ (releasing seat.old.me.0, []) }
    {
        self.table.shared.store::<Release>(seat, self.callers, 0);
    }

    /// Marks the structure as lost.
    pub(crate) fn lose(&self, seat: &mut Seat<Slot<T, T::Op, T::Reply>, View<T::Op, T::Reply>>)
        requires table { seat.old.table_id ≡ self.now.table.shared.table_id }
        requires holds { (seat.old.me.0.to ≡ seat.old.me.0.from + 1) × (seat.old.me.0.holds ≡ true) }
        requires none_owed { seat.old.me.0.owed ≡ [] }
        requires failed { IsLost T.object T.content T.fails seat.old.me.0.log }
        ensures table { seat.new.table_id ≡ seat.old.table_id }
        ensures lost { seat.new.me ≡ (losing seat.old.me.0, seat.old.me.1) }
    {
        let lost = self.callers as u64 + 1;
        self.table.shared.store::<Lose>(seat, self.callers, lost);
    }
}
