//! The vectors that a shop keeps from batch to batch, so that a batch has their room and takes no memory for its own.
ghost use Rattle.std.specs.Prelude.{◌≡◌, []};

use crate::piece::PieceOut;
use seq_objects::Call;
use std::alloc::Global;
use std::mem;

/// The vectors of an earlier batch. Nothing is said of their items: whoever takes a vector empties it.
#[derive(Drop)]
pub struct Spare {
    pub calls: Vec<Call>,
    pub outs: Vec<PieceOut>,
}

impl Spare {
    /// Vectors without room.
    ///
    /// Memory: none.
    pub(crate) fn new(alloc: Global) -> Spare {
        Spare {
            calls: Vec::new(alloc),
            outs: Vec::new(alloc),
        }
    }
}

/// Takes a vector out and empties it. It keeps its room.
pub(crate) fn emptied<X: Drop>(alloc: Global, kept: &mut Vec<X>) -> Vec<X>
    ensures { result.items ≡ [] }
{
    let mut vector = mem::replace(kept, Vec::new(alloc));
    if !vector.is_empty() {
        vector.clear();
    }
    vector
}
