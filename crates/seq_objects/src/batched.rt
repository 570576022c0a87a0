//! The interface of structures that serve a batch of calls in parallel pieces.
ghost use Rattle.std.specs.Prelude.{◌≡◌, ℕ, ◌≤◌, List, IfOk, length};
ghost use Rattle.seq_objects.specs.Objects.{Objects};
ghost use Rattle.seq_objects.specs.Batches.{AreOneBatch, AreOfOneNumber};
ghost use Rattle.seq_objects.specs.Serial.{after_all, replies_to_all};
ghost use Rattle.seq_objects.specs.Pieces.{AllMeet, BatchContext};
ghost use Rattle.seq_objects.specs.declared.call.Call.{Call as CallOf};

use crate::call::Call;
use crate::reply::Reply;
use std::alloc::{AllocError, Global};

/// A structure that serves a whole batch of calls in pieces, which any workers may run in parallel.
///
/// `begin` takes the structure apart, `piece` runs one piece independently of the others, and `end` reassembles
/// the structure. If any of the three runs out of memory, the structure is lost. The number of pieces follows from
/// the content and the calls: each structure has a law that states the number of pieces of its `cut`.
pub trait Batched: Sized + Drop {
    /// The input of a piece. It can be sent to another thread, and may carry memory that `meets` does not mention.
    type In: Drop + Send;
    /// The output of a piece. It can be sent to another thread, and may carry memory that `meets` does not mention.
    type Out: Drop + Send;
    /// What the combiner keeps of the structure while its pieces run.
    type Rest: Drop;

    /// The most pieces that a batch is cut into.
    const MOST: u32;

    /// `MOST`, for contracts.
    ghost MOST: { ℕ };

    /// The content as serial objects, where the objects of other kinds are as at the opening.
    ghost content: { Self → Objects };

    /// The calls that the structure can serve: its own, if the content after them is representable.
    ghost may_serve: { Self → List CallOf → Type 0 };

    /// Relates the structure before a batch and the batch's calls to the inputs of its pieces.
    ghost cut: { Self → List CallOf → List Self.In → Type 0 };

    /// The specification of a piece: which outputs are right for an input.
    ghost meets: { Self.In → Self.Out → Type 0 };

    /// The kept rest belongs to the batch with this context.
    ghost is_context_of: { Self.Rest → BatchContext Self Self.In → Type 0 };

    /// Cuts a batch of calls on one object into at least 1 and at most `MOST` pieces.
    fn begin(self, alloc: Global, calls: &[Call]) -> Result<(Self::Rest, Vec<Self::In>), AllocError>
        requires batch { AreOneBatch calls.now }
        requires one { AreOfOneNumber calls.now }
        requires may { may_serve self calls.now }
        ensures count { IfOk result (λ p. (1 ≤ length p.1.items) × (length p.1.items ≤ MOST)) }
        ensures cut { IfOk result (λ p. cut self calls.now p.1.items) }
        ensures remembers { IfOk result (λ p. is_context_of p.0 (record { before = self; calls = calls.now; ins = p.1.items })) };

    /// Runs one piece.
    fn piece(alloc: Global, input: Self::In) -> Result<Self::Out, AllocError>
        ensures { IfOk result (λ out. meets input out) };

    /// Reassembles the structure, and returns the replies in the order of the calls given to `begin`.
    ///
    /// The clauses are the law of batches: if `outs` has one output for each input, in the same order, and each
    /// output meets its input, the batch was served as if its calls had been served one after another.
    fn end(
        alloc: Global,
        rest: Self::Rest,
        outs: Vec<Self::Out>,
    ) -> Result<(Self, Vec<Reply>), AllocError>
        requires { (o : BatchContext Self Self.In) × is_context_of rest o × AllMeet meets o.ins outs.items }
        ensures replies { IfOk result (λ p. (o : BatchContext Self Self.In) → is_context_of rest o → AllMeet meets o.ins outs.items → p.1.items ≡ replies_to_all (content o.before) o.calls) }
        ensures content { IfOk result (λ p. (o : BatchContext Self Self.In) → is_context_of rest o → AllMeet meets o.ins outs.items → content p.0 ≡ after_all (content o.before) o.calls) };
}

/// Runs pieces one after another.
pub fn run_in_turn<T: Batched>(alloc: Global, ins: Vec<T::In>) -> Result<Vec<T::Out>, AllocError>
    ensures { IfOk result (λ outs. AllMeet T.meets ins.items outs.items) }
{
    let mut outs = Vec::with_capacity(alloc, ins.len())?;
    for input in ins {
        outs.push(T::piece(alloc, input)?)?;
    }
    Ok(outs)
}

/// Serves a batch on one thread, piece after piece. The structure is lost if memory runs out.
pub fn serve_batch<T: Batched>(
    alloc: Global,
    structure: T,
    calls: &[Call],
) -> Result<(T, Vec<Reply>), AllocError>
    requires batch { AreOneBatch calls.now }
    requires one { AreOfOneNumber calls.now }
    requires may { T.may_serve structure calls.now }
    ensures replies { IfOk result (λ p. p.1.items ≡ replies_to_all (T.content structure) calls.now) }
    ensures content { IfOk result (λ p. T.content p.0 ≡ after_all (T.content structure) calls.now) }
{
    let (rest, ins) = structure.begin(alloc, calls)?;
    let outs = run_in_turn::<T>(alloc, ins)?;
    T::end(alloc, rest, outs)
}
