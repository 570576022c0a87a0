//! The shared structure, its callers, and notes of what they have seen.
ghost use Rattle.std.specs.Prelude.{◌≡◌, ◌+◌, ◌<◌, ◌≤◌, [], ◌∷◌, true, false};
ghost use Rattle.shared_calls.specs.declared.view.Slot.TheVariants.{Vacant};
ghost use Rattle.shared_calls.specs.Callers.{idle_view};
ghost use Rattle.shared_calls.specs.Plays.{KnowsItsCalls};
ghost use Rattle.limits.specs.declared.TheConstants.{MOST_WORKERS};

use crate::combined::Combined;
use crate::rule::CallRule;
use crate::view::{Slot, View};
use atomic_table::{Seat, Table};
use std::alloc::Global;

/// A structure that 1 to `MOST_WORKERS` callers share.
pub struct Shared<T: Combined> {
    pub(crate) table: Table<
        Slot<T, T::Op, T::Reply>,
        View<T::Op, T::Reply>,
        u64,
        CallRule<T>,
        Global,
    >,
    pub(crate) callers: usize,
    pub(crate) alloc: Global,
    ghost sized: { (table.shared.table_id.words ≡ callers + 1) × (table.shared.table_id.slots ≡ callers + 1) },
    ghost some: { (1 ≤ callers) × (callers ≤ MOST_WORKERS) },
    ghost key: { table.shared.key ≡ callers },
}

impl<T: Combined> Drop for Shared<T> {
    fn drop(self) {
        let Shared {
            table,
            callers: _,
            alloc: _,
        } = self;
        drop(table);
    }
}

/// One thread's access to a shared structure.
pub struct Caller<T: Combined> {
    pub(crate) seat: Seat<Slot<T, T::Op, T::Reply>, View<T::Op, T::Reply>>,
    pub(crate) number: usize,
    pub(crate) lost: bool,
    ghost own: { (seat.me.0.from ≡ number) × (seat.me.0.to ≡ number + 1) },
    ghost idle: { lost ≡ false → seat.me ≡ (idle_view number seat.me.0.made seat.me.0.seen, (number, Vacant) ∷ []) },
    ghost told: { lost ≡ true → (seat.me.0.lost ≡ true) × (seat.me.0.holds ≡ false) × KnowsItsCalls seat.me.0 },
}

impl<T: Combined> Drop for Caller<T> {
    fn drop(self) {
        let Caller {
            seat,
            number: _,
            lost: _,
        } = self;
        drop(seat);
    }
}

/// What a caller had seen when it told it.
pub struct Note<T: Combined> {
    pub(crate) seat: Seat<Slot<T, T::Op, T::Reply>, View<T::Op, T::Reply>>,
    ghost bare: { seat.me.1 ≡ [] },
    ghost none: { seat.me.0.to ≡ 0 },
}

impl<T: Combined> Drop for Note<T> {
    fn drop(self) {
        let Note { seat } = self;
        drop(seat);
    }
}

impl<T: Combined> Shared<T> {
    pub(crate) fn into_table(
        self,
    ) -> Table<Slot<T, T::Op, T::Reply>, View<T::Op, T::Reply>, u64, CallRule<T>, Global>
        ensures { (result.shared.table_id ≡ self.table.shared.table_id) × (result.shared.key ≡ self.table.shared.key) }
    {
        let Shared {
            table,
            callers: _,
            alloc: _,
        } = self;
        table
    }
}

impl<T: Combined> Caller<T> {
    pub(crate) fn into_seat(self) -> Seat<Slot<T, T::Op, T::Reply>, View<T::Op, T::Reply>>
        ensures { (result.table_id ≡ self.seat.table_id) × (result.id ≡ self.seat.id) × (result.me ≡ self.seat.me) }
    {
        let Caller {
            seat,
            number: _,
            lost: _,
        } = self;
        seat
    }
}

impl<T: Combined> Note<T> {
    pub(crate) fn into_seat(self) -> Seat<Slot<T, T::Op, T::Reply>, View<T::Op, T::Reply>>
        ensures { (result.table_id ≡ self.seat.table_id) × (result.id ≡ self.seat.id) × (result.me ≡ self.seat.me) }
    {
        let Note { seat } = self;
        seat
    }
}

/// Why a call fails.
#[derive(Drop)]
pub enum Failed<O, R> {
    /// There was no memory for the call. It was not made: here is its operation, and the caller may call again.
    Refused(O),
    /// The structure is lost: it failed to serve a batch, for want of memory. The call was served before, with this
    /// reply, or it was not served.
    Lost(Option<R>),
}
