//! The end of a shared structure: all callers come back, and with them the structure.
ghost use Rattle.std.specs.Prelude.{◌≡◌, ℕ, ◌+◌, ◌<◌, List, [], false, IfSome, IfNone, OnSome};
ghost use Rattle.std.specs.Mem.Slots.{slots_len, slots_filled};
ghost use Rattle.shared_calls.specs.declared.view.Entry.{Entry as EntryOf};
ghost use Rattle.shared_calls.specs.Logs.{state_after};
ghost use Rattle.shared_calls.specs.Plays.{retiring};
ghost use Rattle.shared_calls.specs.Views.{IsCallerOf, number_of};
ghost use Rattle.shared_calls.specs.Rule.{IsLost};
ghost use Rattle.shared_calls.specs.Closing.{AreCallersOf, AreAllCalls, SomeIsLost, NoneIsLost, Gathers, HasSlotsBelow};

use crate::combined::Combined;
use crate::rule::{Gathering, Parting, Retire};
use crate::shared::{Caller, Shared};
use crate::view::{Slot, View};
use atomic_table::{Closed, Seat};
use std::alloc::Global;

/// Frees a closed table. Its slots from `count` on must already be empty.
fn drop_slots<S: Drop>(closed: Closed<S, Global>, count: usize)
    requires { (count < slots_len closed.slots) × HasSlotsBelow (slots_filled closed.slots) (slots_len closed.slots) count }
{
    let mut closed = closed;
    for slot in 0..count {
        drop(closed.take(slot));
    }
    closed.free();
}

impl<T: Combined> Shared<T> {
    /// The caller retires. Its seat keeps no slot.
    fn retire(&self, caller: Caller<T>) -> Seat<Slot<T, T::Op, T::Reply>, View<T::Op, T::Reply>>
        requires caller { IsCallerOf self.now caller }
        ensures table { result.table_id ≡ self.now.table.shared.table_id }
        ensures retired { result.me ≡ (retiring caller.seat.me.0, []) }
        ensures idle { caller.seat.me.0.holds ≡ false }
        ensures stands { (caller.seat.me.0.from ≡ number_of caller) × (caller.seat.me.0.to ≡ number_of caller + 1) }
    {
        let number = caller.number;
        let mut seat = caller.into_seat();
        let shared = &self.table.shared;
        shared.store::<Retire>(&mut seat, number, 3);
        shared.split_seat::<Parting>(&mut seat)
    }

    /// All callers retire. One seat stands for them.
    fn gather(
        &self,
        callers: Vec<Caller<T>>,
    ) -> Seat<Slot<T, T::Op, T::Reply>, View<T::Op, T::Reply>>
        requires callers { AreCallersOf self.now callers.items }
        ensures table { result.table_id ≡ self.now.table.shared.table_id }
        ensures gathers { Gathers callers.items result.me.0 }
    {
        let mut rest = callers.into_iter();
        let Some(first) = rest.next() else {
            unreachable!();
        };
        let mut seat = self.retire(first);
        for caller in rest {
            let next = self.retire(caller);
            self.table.shared.join_seat::<Gathering>(&mut seat, next);
        }
        seat
    }

    /// Ends the sharing: the callers come back, all of them in the order of their numbers, and the structure is given,
    /// unless it is lost.
    ///
    /// Memory: none.
    pub fn close(self, callers: Vec<Caller<T>>) -> Option<T>
        requires callers { AreCallersOf self callers.items }
        ensures kept { IfSome result (λ structure. (log : List (EntryOf T.Op T.Reply)) × AreAllCalls T.object callers.items log
            × (T.content structure ≡ state_after T.object log)) }
        ensures sound { OnSome result (NoneIsLost callers.items) }
        ensures lost { IfNone result ((log : List (EntryOf T.Op T.Reply)) × AreAllCalls T.object callers.items log × IsLost T.object T.content T.fails log) }
        ensures told { IfNone result (SomeIsLost callers.items) }
    {
        let seat = self.gather(callers);
        let count = self.callers;
        let mut closed = self.into_table().close_with(seat);
        let flag = closed.word(count);
        let last = closed.take(count);
        drop_slots(closed, count);
        if flag != 0 {
            return None;
        }
        match last {
            Slot::Whole(structure, _) => Some(structure),
            _ => unreachable!(),
        }
    }
}
