//! The board, its desks and their claims.
ghost use Rattle.std.specs.Prelude.{◌≡◌, ◌+◌, ◌*◌, ◌<◌, ◌≤◌, []};
ghost use Rattle.limits.specs.declared.TheConstants.{MOST_WORKERS, PLACES};

mod calls;
mod opening;

use crate::rule::BoardRule;
use crate::view::{Content, View};
use crate::work::Work;
use atomic_table::{Seat, Table};
use std::alloc::Global;
use std::marker::PhantomData;

/// A board with a row of `PLACES` places for each worker, of which there are at most `MOST_WORKERS`. All threads share
/// it.
pub struct Board<W: Work> {
    pub(crate) table: Table<Content<W::In, W::Out>, View<W::In>, u64, BoardRule<W>, Global>,
    pub(crate) rows: u32,
    ghost places: { (table.shared.table_id.words ≡ PLACES * rows) × (table.shared.table_id.slots ≡ PLACES * rows) },
    ghost some: { (1 ≤ rows) × (rows ≤ MOST_WORKERS) },
}

impl<W: Work> Drop for Board<W> {
    fn drop(self) {
        let Board { table, rows: _ } = self;
        drop(table);
    }
}

/// One worker's seat at the board, with its own row. It is moved to the worker's thread.
pub struct Desk<W: Work> {
    pub(crate) seat: Seat<Content<W::In, W::Out>, View<W::In>>,
    pub(crate) row: u32,
    ghost idle: { (seat.me.1 ≡ []) × (seat.me.0.in_hand ≡ 0) },
    ghost own: { (seat.me.0.desk.row ≡ row) × (seat.me.0.end_row ≡ row + 1) },
}

impl<W: Work> Drop for Desk<W> {
    fn drop(self) {
        let Desk { seat, row: _ } = self;
        drop(seat);
    }
}

/// The right to finish the piece at a place. If it is dropped, the place stays claimed.
pub struct Claim<W> {
    pub(crate) row: u32,
    pub(crate) place: u32,
    pub(crate) work: PhantomData<W>,
    ghost within: { place < PLACES },
}

impl<W> Drop for Claim<W> {
    fn drop(self) {
        let Claim {
            row: _,
            place: _,
            work: _,
        } = self;
    }
}
