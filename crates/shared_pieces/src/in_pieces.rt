//! The structures that serve a batch in pieces.
ghost use Rattle.std.specs.Prelude.{◌≡◌, ℕ, ◌≤◌, length, IfOk, OnErr};
ghost use Rattle.std.specs.List.{AllByRecursion};
ghost use Rattle.shared_calls.specs.Serial.{IsServedInSomeOrder};
ghost use Rattle.shared_pieces.specs.Batches.{AllMeet, BatchContext};
ghost use Rattle.limits.specs.declared.TheConstants.{MOST_WORKERS, PLACES};

use shared_calls::Combined;
use std::alloc::{AllocError, Global};

/// A structure that can serve a batch in pieces, which any threads may run in parallel.
///
/// `begin` takes the structure apart, `piece` runs one piece independently of the others, and `end` reassembles the
/// structure. The structure is lost if one of the three runs out of memory.
pub trait InPieces: Combined {
    /// The input of a piece. It can be sent to another thread.
    type In: Drop + Send;
    /// The output of a piece. It can be sent to another thread.
    type Out: Drop + Send;
    /// What is kept of the structure while its pieces run.
    type Rest: Drop;

    /// The most pieces that a batch is cut into.
    const MOST: u32;

    /// `MOST`, for contracts.
    ghost MOST: { ℕ };

    /// The specification of a piece: which outputs are right for an input.
    ghost meets: { Self.In → Self.Out → Type 0 };

    /// What holds where a piece fails with this input, for want of memory.
    ghost starves: { Self.In → Type 0 };

    /// The kept rest belongs to the batch with this context.
    ghost is_context_of: { Self.Rest → BatchContext Self Self.Op Self.In → Type 0 };

    /// Whether a batch is to be served in pieces. Any answer is right.
    fn is_worth(&self, ops: &[Self::Op]) -> bool;

    /// Cuts a batch of at most one operation of each caller into pieces. Where one of them fails, the structure fails.
    fn begin(
        self,
        alloc: Global,
        ops: Vec<Self::Op>,
    ) -> Result<(Self::Rest, Vec<Self::In>), AllocError>
        requires few { length ops.items ≤ MOST_WORKERS }
        ensures most { IfOk result (λ p. (length p.1.items ≤ MOST) × (length p.1.items ≤ PLACES)) }
        ensures remembers { IfOk result (λ p. is_context_of p.0 (record { before = self; ops = ops.items; ins = p.1.items })) }
        ensures starved { IfOk result (λ p. AllByRecursion (λ input. starves input → Self.fails self ops.items) p.1.items) }
        ensures failed { OnErr result (Self.fails self ops.items) };

    /// Runs one piece.
    fn piece(alloc: Global, input: Self::In) -> Result<Self::Out, AllocError>
        ensures met { IfOk result (λ out. meets input out) }
        ensures failed { OnErr result (starves input) };

    /// Reassembles the structure, and returns the replies in the order of the operations given to `begin`.
    ///
    /// The clauses are the law of pieces: if `outs` has one output for each input, in the same order, and each output
    /// meets its input, the batch was served as if its operations came one after another in some order.
    fn end(
        alloc: Global,
        rest: Self::Rest,
        outs: Vec<Self::Out>,
    ) -> Result<(Self, Vec<Self::Reply>), AllocError>
        requires met { (o : BatchContext Self Self.Op Self.In) × is_context_of rest o × AllMeet meets o.ins outs.items }
        ensures served { IfOk result (λ p. (o : BatchContext Self Self.Op Self.In) → is_context_of rest o → AllMeet meets o.ins outs.items
            → IsServedInSomeOrder Self.object (Self.content o.before) o.ops p.1.items (Self.content p.0)) }
        ensures failed { OnErr result ((o : BatchContext Self Self.Op Self.In) → is_context_of rest o → AllMeet meets o.ins outs.items
            → Self.fails o.before o.ops) };
}
