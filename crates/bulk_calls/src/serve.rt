//! Serving the keys of one range.
ghost use Rattle.std.specs.Prelude.{◌≡◌, IfOk, OnOk};
ghost use Rattle.bulk_calls.specs.Singles.{after_one, answer_to};
ghost use Rattle.bulk_calls.specs.Pieces.{Meets};

use crate::op::BulkKind;
use crate::piece::{KeyOp, Piece, Served};
use piece_threads::Pieces;
use std::alloc::{AllocError, Global};
use std::collections::VecDeque;
use tree_forest::Forest;

/// The pieces of the set's batches.
pub(crate) struct RangePieces;

/// Serves one key.
fn serve_one(forest: &mut Forest, operation: KeyOp) -> Result<bool, AllocError>
    ensures answer { IfOk result (λ answer. answer ≡ answer_to forest.old.keys operation) }
    ensures after { OnOk result (forest.new.keys ≡ after_one forest.old.keys operation) }
{
    match operation.kind {
        BulkKind::Insert => forest.insert(operation.key),
        BulkKind::Remove => Ok(forest.remove(operation.key)),
        BulkKind::Find => Ok(forest.find(operation.key)),
    }
}

impl Piece {
    /// Serves the keys of the range, one after another.
    pub fn serve(self, alloc: Global) -> Result<Served, AllocError>
        ensures { IfOk result (λ served. Meets self served) }
    {
        let Piece {
            mut forest,
            operations,
        } = self;
        let mut answers = VecDeque::with_capacity(alloc, operations.len())?;
        for operation in &operations {
            answers.push_back(serve_one(&mut forest, *operation)?)?;
        }
        Ok(Served { forest, answers })
    }
}

impl Pieces<Piece, Served> for RangePieces {
    ghost meets = { Meets };

    fn piece(alloc: Global, input: Piece) -> Result<Served, AllocError> {
        input.serve(alloc)
    }
}
