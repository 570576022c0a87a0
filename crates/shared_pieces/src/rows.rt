//! The pieces of a batch at the places of a row: they are posted, run by any caller, and collected.
ghost use Rattle.std.specs.Prelude.{◌≡◌, ℕ, ◌<◌, ◌≤◌, List, [], ◌∷◌, length, vec_len, vec_capacity, IfSome, IfNone};
ghost use Rattle.piece_board.specs.Boards.{desk_view, IsDeskOf};
ghost use Rattle.shared_pieces.specs.Batches.{AllMeet, MeetsOrStarves, OneStarves};
ghost use Rattle.shared_pieces.specs.Rows.{placed_from};
ghost use Rattle.limits.specs.declared.TheConstants.{PLACES};

use crate::in_pieces::InPieces;
use crate::work::Pieces;
use crossbeam_utils::Backoff;
use piece_board::{Board, Desk};
use std::alloc::{AllocError, Global};
use std::sync::Wait;

/// Runs one piece. `None`: memory ran out.
fn run<T: InPieces>(alloc: Global, input: T::In) -> Option<T::Out>
    ensures { MeetsOrStarves T.meets T.starves input result }
{
    match T::piece(alloc, input) {
        Ok(out) => Some(out),
        Err(AllocError) => None,
    }
}

/// Claims the piece at a place of a row, if it is open, and runs it. Returns whether it was open.
fn claim_and_run<T: InPieces>(
    alloc: Global,
    board: &Board<Pieces<T>>,
    desk: &mut Desk<Pieces<T>>,
    row: u32,
    place: u32,
) -> bool
    requires desk { IsDeskOf board.now desk.old }
    ensures desk { IsDeskOf board.now desk.new }
    ensures own { (desk_view desk.new).posted ≡ (desk_view desk.old).posted }
{
    match board.claim(desk, row, place) {
        Some((claim, input)) => {
            let out = run::<T>(alloc, input);
            board.finish(desk, claim, out);
            true
        }
        None => false,
    }
}

/// Claims and runs the first piece of a row that is open. Returns whether there was one.
pub(crate) fn run_first<T: InPieces>(
    alloc: Global,
    board: &Board<Pieces<T>>,
    desk: &mut Desk<Pieces<T>>,
    row: u32,
) -> bool
    requires desk { IsDeskOf board.now desk.old }
    ensures desk { IsDeskOf board.now desk.new }
    ensures own { (desk_view desk.new).posted ≡ (desk_view desk.old).posted }
{
    for place in 0..T::MOST {
        if claim_and_run(alloc, board, desk, row, place) {
            return true;
        }
    }
    false
}

/// Posts each piece at the place of its number.
fn post_all<T: InPieces>(board: &Board<Pieces<T>>, desk: &mut Desk<Pieces<T>>, ins: Vec<T::In>)
    requires desk { IsDeskOf board.now desk.old }
    requires free { (desk_view desk.old).posted ≡ [] }
    requires few { length ins.items ≤ PLACES }
    ensures desk { IsDeskOf board.now desk.new }
    ensures posted { (desk_view desk.new).posted ≡ placed_from 0 ins.items }
{
    let mut place = 0u32;
    for input in ins {
        board.post(desk, place, input);
        place += 1;
    }
}

/// Runs those of the first `count` pieces of the own row that nobody has claimed.
fn run_own<T: InPieces>(
    alloc: Global,
    board: &Board<Pieces<T>>,
    desk: &mut Desk<Pieces<T>>,
    count: u32,
)
    requires desk { IsDeskOf board.now desk.old }
    ensures desk { IsDeskOf board.now desk.new }
    ensures own { (desk_view desk.new).posted ≡ (desk_view desk.old).posted }
{
    let row = desk.row();
    for place in 0..count {
        claim_and_run(alloc, board, desk, row, place);
    }
}

/// Waits for the output at `place`, the first place of the own row that is not free.
fn collect_one<T: InPieces, R: Wait>(
    rt: &R,
    board: &Board<Pieces<T>>,
    desk: &mut Desk<Pieces<T>>,
    place: u32,
) -> Option<T::Out>
    requires desk { IsDeskOf board.now desk.old }
    requires place { place < PLACES }
    requires first { (input : T.In) × (rest : List (ℕ × T.In)) × ((desk_view desk.old).posted ≡ (place, input) ∷ rest) }
    ensures desk { IsDeskOf board.now desk.new }
    ensures met { (input : T.In) (rest : List (ℕ × T.In)) → (desk_view desk.old).posted ≡ (place, input) ∷ rest → MeetsOrStarves T.meets T.starves input result }
    ensures free { (input : T.In) (rest : List (ℕ × T.In)) → (desk_view desk.old).posted ≡ (place, input) ∷ rest → (desk_view desk.new).posted ≡ rest }
{
    let backoff = Backoff::new();
    for _ in rt.forever() {
        if let Some(out) = board.collect(desk, place) {
            return out;
        }
        backoff.snooze();
    }
    unreachable!()
}

/// Collects the outputs of the first `count` pieces of the own row, in their order. `None`: a piece ran out of memory.
fn collect_all<T: InPieces, R: Wait>(
    rt: &R,
    board: &Board<Pieces<T>>,
    desk: &mut Desk<Pieces<T>>,
    count: u32,
    outs: Vec<T::Out>,
) -> Option<Vec<T::Out>>
    requires desk { IsDeskOf board.now desk.old }
    requires posted { (ins : List T.In) × ((desk_view desk.old).posted ≡ placed_from 0 ins) × (count ≡ length ins) × (length ins ≤ PLACES) }
    requires room { (outs.items ≡ []) × (vec_len outs ≡ 0) × (count ≤ vec_capacity outs) }
    ensures desk { IsDeskOf board.now desk.new }
    ensures free { (desk_view desk.new).posted ≡ [] }
    ensures met { IfSome result (λ outs. (ins : List T.In) → (desk_view desk.old).posted ≡ placed_from 0 ins → AllMeet T.meets ins outs.items) }
    ensures starved { IfNone result ((ins : List T.In) → (desk_view desk.old).posted ≡ placed_from 0 ins → OneStarves T.starves ins) }
{
    let mut outs = outs;
    let mut starved = false;
    for place in 0..count {
        match collect_one(rt, board, desk, place) {
            Some(out) => outs.push_reserved(out),
            None => starved = true,
        }
    }
    if starved { None } else { Some(outs) }
}

/// Hands out the pieces of a batch, helps to run them, and collects their outputs in their order. `None`: a piece ran
/// out of memory.
pub(crate) fn run_all<T: InPieces, R: Wait>(
    rt: &R,
    alloc: Global,
    board: &Board<Pieces<T>>,
    desk: &mut Desk<Pieces<T>>,
    ins: Vec<T::In>,
    outs: Vec<T::Out>,
) -> Option<Vec<T::Out>>
    requires desk { IsDeskOf board.now desk.old }
    requires free { (desk_view desk.old).posted ≡ [] }
    requires few { length ins.items ≤ PLACES }
    requires room { (outs.items ≡ []) × (vec_len outs ≡ 0) × (length ins.items ≤ vec_capacity outs) }
    ensures desk { IsDeskOf board.now desk.new }
    ensures free { (desk_view desk.new).posted ≡ [] }
    ensures met { IfSome result (λ outs. AllMeet T.meets ins.items outs.items) }
    ensures starved { IfNone result (OneStarves T.starves ins.items) }
{
    let count = ins.len() as u32;
    post_all(board, desk, ins);
    run_own(alloc, board, desk, count);
    collect_all(rt, board, desk, count, outs)
}
