//! The pieces of a batch as the work of a board.
ghost use Rattle.shared_pieces.specs.Batches.{MeetsOrStarves};

use crate::in_pieces::InPieces;
use piece_board::Work;
use std::marker::PhantomData;

/// The kind of work on the board of a structure's callers: pieces of its batches. The output of a piece that ran out of
/// memory is `None`.
pub struct Pieces<T> {
    structure: PhantomData<T>,
}

impl<T: InPieces> Work for Pieces<T> {
    type In = T::In;

    type Out = Option<T::Out>;

    ghost meets = { MeetsOrStarves T.meets T.starves };
}
