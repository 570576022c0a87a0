//! Pieces of work that are independent of each other.
ghost use Rattle.std.specs.Prelude.{IfOk};
ghost use Rattle.seq_objects.specs.Pieces.{AllMeet};

use std::alloc::{AllocError, Global};

/// Work in pieces that are independent of each other: each is given an `I` and answers an `O`.
pub trait Pieces<I, O> {
    /// What a piece owes: how its out depends on its in.
    ghost meets: { I → O → Type 0 };

    /// Works on one piece.
    fn piece(alloc: Global, input: I) -> Result<O, AllocError>
        ensures { IfOk result (λ out. meets input out) };
}

/// Works on pieces one after another, in the caller's thread.
pub fn run_in_turn<I: Drop, O: Drop, P: Pieces<I, O>>(
    alloc: Global,
    ins: Vec<I>,
) -> Result<Vec<O>, AllocError>
    ensures { IfOk result (λ outs. AllMeet P.meets ins.items outs.items) }
{
    let mut outs = Vec::with_capacity(alloc, ins.len())?;
    for input in ins {
        outs.push(P::piece(alloc, input)?)?;
    }
    Ok(outs)
}
