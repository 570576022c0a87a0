//! The pieces of a batch as the work items of `piece_board`.
ghost use Rattle.launch_batch.specs.Pieces.{Meets};

use launch_batch::{PieceIn, PieceOut};
use piece_board::Work;

/// The kind of work on the crew's board: pieces of the shop's batches. The worker that claims a piece runs it with
/// `launch_batch::run_piece`, whose output satisfies `Meets`.
pub struct BatchPieces;

impl Work for BatchPieces {
    type In = PieceIn;

    type Out = PieceOut;

    ghost meets = { Meets };
}
