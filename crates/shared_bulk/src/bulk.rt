//! A set whose calls carry many keys, and how it serves a batch in pieces.
ghost use Rattle.std.specs.Prelude.{◌≡◌, ◌≤◌, ⊤, length, IfOk, OnErr};
ghost use Rattle.std.specs.List.{AllByRecursion};
ghost use Rattle.bulk_calls.specs.declared.piece.Piece.{Piece as PieceOf};
ghost use Rattle.bulk_calls.specs.Views.{BulkView};
ghost use Rattle.bulk_calls.specs.Pieces.{Meets};
ghost use Rattle.shared_calls.specs.Serial.{IsServedInSomeOrder};
ghost use Rattle.shared_collections.specs.Bulks.{bulk_set};
ghost use Rattle.shared_pieces.specs.Batches.{AllMeet, BatchContext};
ghost use Rattle.shared_bulk.specs.declared.bulk.BulkInPieces.{BulkInPieces as SetOf};
ghost use Rattle.shared_bulk.specs.Batches.{IsBatchOf};
ghost use Rattle.limits.specs.declared.TheConstants.{MOST_WORKERS, PLACES};

use bulk_calls::{BulkCall, BulkOp, BulkSet, Piece, Replies, Rest, Served, in_batch_order};
use shared_calls::{Combined, Helper};
use shared_collections::Bulk;
use shared_collections::bulk::in_operation_order;
use shared_pieces::{InPieces, PieceHelper};
use std::alloc::{AllocError, Global};
use std::sync::Wait;

/// The number of keys from which on a batch is served in pieces.
const KEYS_WORTH_PIECES: usize = 128;

/// A set of numbers below 2^32 that can serve a batch in pieces.
#[derive(Drop)]
pub struct BulkInPieces {
    pub set: BulkSet,
}

/// What is kept of a set while the pieces of a batch run: the calls of the batch, and what the set keeps itself.
#[derive(Drop)]
pub struct BatchRest {
    pub calls: Vec<BulkCall>,
    pub rest: Rest,
}

/// The number of keys of all operations together.
fn keys_of(ops: &[BulkOp]) -> usize {
    let mut keys = 0usize;
    for op in ops {
        keys = keys.saturating_add(op.keys().len());
    }
    keys
}

impl Combined for BulkInPieces {
    type Op = BulkOp;

    type Reply = Replies;

    ghost object = { bulk_set };

    ghost content = { λ b. b.set };

    ghost fails = { λ b ops. ⊤ };

    fn serve(
        self,
        alloc: Global,
        ops: Vec<BulkOp>,
    ) -> Result<(BulkInPieces, Vec<Replies>), AllocError>
        requires few { length ops.items ≤ MOST_WORKERS }
        ensures served { IfOk result (λ p. IsServedInSomeOrder bulk_set self.set ops.items p.1.items p.0.set) }
        ensures failed { OnErr result ⊤ }
    {
        let BulkInPieces { set } = self;
        let (bulk, replies) = Bulk { set }.serve(alloc, ops)?;
        let Bulk { set } = bulk;
        Ok((BulkInPieces { set }, replies))
    }
}

impl InPieces for BulkInPieces {
    type In = Piece;

    type Out = Served;

    type Rest = BatchRest;

    const MOST: u32 = 16;

    ghost MOST = { 16 };

    ghost meets = { Meets };

    ghost starves = { λ piece. ⊤ };

    ghost is_context_of = { λ rest o. IsBatchOf rest o.before.set o.ops o.ins };

    fn is_worth(&self, ops: &[BulkOp]) -> bool {
        keys_of(ops) >= KEYS_WORTH_PIECES
    }

    fn begin(self, alloc: Global, ops: Vec<BulkOp>) -> Result<(BatchRest, Vec<Piece>), AllocError>
        requires few { length ops.items ≤ MOST_WORKERS }
        ensures most { IfOk result (λ p. (length p.1.items ≤ 16) × (length p.1.items ≤ PLACES)) }
        ensures remembers { IfOk result (λ p. IsBatchOf p.0 self.set ops.items p.1.items) }
        ensures starved { IfOk result (λ p. AllByRecursion (λ input. ⊤ → ⊤) p.1.items) }
        ensures failed { OnErr result ⊤ }
    {
        let BulkInPieces { set } = self;
        let calls = in_batch_order(alloc, &ops)?;
        let (rest, pieces) = set.begin(alloc, &calls)?;
        Ok((BatchRest { calls, rest }, pieces))
    }

    fn piece(alloc: Global, input: Piece) -> Result<Served, AllocError> {
        input.serve(alloc)
    }

    fn end(
        alloc: Global,
        rest: BatchRest,
        outs: Vec<Served>,
    ) -> Result<(BulkInPieces, Vec<Replies>), AllocError>
        requires met { (o : BatchContext SetOf BulkView PieceOf) × IsBatchOf rest o.before.set o.ops o.ins × AllMeet Meets o.ins outs.items }
        ensures served { IfOk result (λ p. (o : BatchContext SetOf BulkView PieceOf) → IsBatchOf rest o.before.set o.ops o.ins → AllMeet Meets o.ins outs.items
            → IsServedInSomeOrder bulk_set o.before.set o.ops p.1.items p.0.set) }
        ensures failed { OnErr result ((o : BatchContext SetOf BulkView PieceOf) → IsBatchOf rest o.before.set o.ops o.ins → AllMeet Meets o.ins outs.items → ⊤) }
    {
        let BatchRest { calls, rest } = rest;
        let (set, replies) = BulkSet::end(alloc, rest, &calls, outs)?;
        let replies = in_operation_order(alloc, &calls, replies)?;
        Ok((BulkInPieces { set }, replies))
    }
}

impl<'a> Helper<BulkInPieces> for PieceHelper<'a, BulkInPieces> {
    fn serve<R: Wait>(
        &mut self,
        rt: &R,
        alloc: Global,
        structure: BulkInPieces,
        ops: Vec<BulkOp>,
    ) -> Result<(BulkInPieces, Vec<Replies>), AllocError>
        requires few { length ops.items ≤ MOST_WORKERS }
        ensures served { IfOk result (λ p. IsServedInSomeOrder bulk_set structure.set ops.items p.1.items p.0.set) }
        ensures failed { OnErr result ⊤ }
    {
        self.serve_batch(rt, alloc, structure, ops)
    }

    fn help(&mut self, holder: usize) -> bool {
        self.run_piece_of(holder)
    }
}
