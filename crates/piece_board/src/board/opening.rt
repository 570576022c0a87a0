//! The construction of a board and its desks.
ghost use Rattle.std.specs.Prelude.{◌≡◌, ◌≤◌, [], IfOk, replicate};
ghost use Rattle.limits.specs.declared.TheConstants.{MOST_WORKERS};
ghost use Rattle.piece_board.specs.Rule.{first_view};
ghost use Rattle.piece_board.specs.Boards.{workers_of, AreDesks};

use crate::board::{Board, Desk};
use crate::rule::RowCut;
use crate::view::{Content, View};
use crate::work::Work;
use atomic_table::{Refused, Seat, Table};
use limits::PLACES;
use std::alloc::{AllocError, Global};

/// The initial slots of `count` places.
fn empty_places<I: Drop, O: Drop>(
    alloc: Global,
    count: usize,
) -> Result<Vec<Content<I, O>>, AllocError>
    ensures { IfOk result (λ v. v.items ≡ replicate count Content.Nothing) }
{
    let mut places = Vec::with_capacity(alloc, count)?;
    for _ in 0..count {
        places.push(Content::Nothing)?;
    }
    Ok(places)
}

/// A desk for each worker: its row is split off from the first seat, which starts with all rows.
fn desks_of<W: Work>(
    alloc: Global,
    board: &Board<W>,
    seat: Seat<Content<W::In, W::Out>, View<W::In>>,
) -> Result<Vec<Desk<W>>, AllocError>
    requires seat { (seat.table_id ≡ board.now.table.shared.table_id)
        × (seat.me ≡ (first_view (workers_of board.now), [])) }
    ensures { IfOk result (λ desks. AreDesks board.now desks.items) }
{
    let mut seat = seat;
    let mut desks = Vec::new(alloc);
    for row in 0..board.rows {
        let own = board.table.shared.split_seat::<RowCut>(&mut seat);
        desks.push(Desk { seat: own, row })?;
    }
    Ok(desks)
}

impl<W: Work> Board<W> {
    /// A board with a row of free places for each worker, and each worker's desk.
    pub fn make(alloc: Global, workers: u32) -> Result<(Board<W>, Vec<Desk<W>>), AllocError>
        requires workers { (1 ≤ workers) × (workers ≤ MOST_WORKERS) }
        ensures workers { IfOk result (λ made. workers_of made.0 ≡ workers) }
        ensures desks { IfOk result (λ made. AreDesks made.0 made.1.items) }
    {
        let count = PLACES as usize * workers as usize;
        let words = Vec::from_elem(alloc, 0u64, count)?;
        let slots = empty_places(alloc, count)?;
        let (table, seat) = match Table::new(alloc, &words, slots, &u64::from(workers)) {
            Ok(made) => made,
            Err(Refused { slots: _ }) => return Err(AllocError),
        };
        let board = Board {
            table,
            rows: workers,
        };
        let desks = desks_of(alloc, &board, seat)?;
        Ok((board, desks))
    }
}
