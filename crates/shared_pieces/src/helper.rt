//! A caller that serves its batches in pieces, and runs pieces of others while it waits.
ghost use Rattle.std.specs.Prelude.{◌≡◌, ◌≤◌, [], length, IfOk, OnErr};
ghost use Rattle.shared_calls.specs.Serial.{IsServedInSomeOrder};
ghost use Rattle.piece_board.specs.Boards.{desk_view, IsDeskOf};
ghost use Rattle.limits.specs.declared.TheConstants.{MOST_WORKERS};

use crate::in_pieces::InPieces;
use crate::rows::{run_all, run_first};
use crate::work::Pieces;
use limits::MOST_WORKERS;
use piece_board::{Board, Desk, Work};
use std::alloc::{AllocError, Global};
use std::sync::Wait;

/// One caller's helper. The places of its row are free between two batches.
#[derive(Drop)]
pub struct PieceHelper<'a, T: InPieces>
where
    Pieces<T>: Work<In = T::In, Out = Option<T::Out>>,
{
    board: &'a Board<Pieces<T>>,
    desk: Desk<Pieces<T>>,
    alloc: Global,
    ghost ours: { IsDeskOf board.now desk },
    ghost free: { (desk_view desk).posted ≡ [] },
}

impl<'a, T: InPieces> PieceHelper<'a, T> {
    /// The helper of a caller, with the desk of the caller's number and the memory for the pieces that it runs.
    pub fn new(
        board: &'a Board<Pieces<T>>,
        desk: Desk<Pieces<T>>,
        alloc: Global,
    ) -> PieceHelper<'a, T>
        requires desk { IsDeskOf board.now desk }
        requires free { (desk_view desk).posted ≡ [] }
    {
        PieceHelper { board, desk, alloc }
    }

    /// Serves a batch as `Helper::serve` does: in pieces, if it is worth them.
    pub fn serve_batch<R: Wait>(
        &mut self,
        rt: &R,
        alloc: Global,
        structure: T,
        ops: Vec<T::Op>,
    ) -> Result<(T, Vec<T::Reply>), AllocError>
        requires few { length ops.items ≤ MOST_WORKERS }
        ensures served { IfOk result (λ p. IsServedInSomeOrder T.object (T.content structure) ops.items p.1.items (T.content p.0)) }
        ensures failed { OnErr result (T.fails structure ops.items) }
    {
        if !structure.is_worth(ops.as_slice()) {
            return structure.serve(alloc, ops);
        }
        let Ok(outs) = Vec::with_capacity(alloc, T::MOST as usize) else {
            return structure.serve(alloc, ops);
        };
        let (rest, ins) = structure.begin(alloc, ops)?;
        match run_all(rt, self.alloc, self.board, &mut self.desk, ins, outs) {
            Some(outs) => T::end(alloc, rest, outs),
            None => Err(AllocError),
        }
    }

    /// Runs a piece of the caller of this number, if one is posted that nobody has claimed, as `Helper::help` does.
    /// Returns whether there was one.
    pub fn run_piece_of(&mut self, holder: usize) -> bool {
        holder < MOST_WORKERS as usize
            && run_first(self.alloc, self.board, &mut self.desk, holder as u32)
    }
}
