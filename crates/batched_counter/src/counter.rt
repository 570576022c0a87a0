//! The counter, and its implementation of `Batched`.
ghost use Rattle.std.specs.Prelude.{◌≡◌, ℕ, IfOk, IsOk};
ghost use Rattle.seq_objects.specs.Serial.{replies_to_all, after_all, of_counter};
ghost use Rattle.seq_objects.specs.Pieces.{AllMeet, BatchContext};
ghost use Rattle.batched_counter.specs.declared.piece.Piece.{Piece as PieceOf};
ghost use Rattle.batched_counter.specs.Calls.{MayServe};
ghost use Rattle.batched_counter.specs.Pieces.{Meets, Cut, IsContextOf};

use crate::begin::pieces_of;
use crate::end::join_pieces;
use crate::piece::{Piece, Rest, Served};
use crate::serve::serve_piece;
use seq_objects::{Batched, Call, Reply};
use std::alloc::{AllocError, Global};
use std::marker::Model;

/// A counter that serves additions in batches. Contracts see it as its number.
#[derive(Drop)]
pub struct Counter {
    number: u64,
}

impl Model for Counter {
    ghost use Rattle.std.specs.Prelude.{ℕ};

    ghost Value = { ℕ };

    ghost view = { λ c. c.number };
}

impl Counter {
    /// A counter at 0.
    ///
    /// Memory: none.
    pub fn new(_alloc: Global) -> Result<Counter, AllocError>
        ensures opening { IfOk result (λ c. c ≡ 0) }
        ensures sure { IsOk result }
    {
        Ok(Counter { number: 0 })
    }
}

impl Batched for Counter {
    type In = Piece;

    type Out = Served;

    type Rest = Rest;

    const MOST: u32 = 16;

    ghost MOST = { 16 };

    ghost content = { of_counter };

    ghost may_serve = { MayServe };

    ghost cut = { Cut };

    ghost meets = { Meets };

    ghost is_context_of = { IsContextOf };

    fn begin(self, alloc: Global, calls: &[Call]) -> Result<(Rest, Vec<Piece>), AllocError> {
        let pieces = pieces_of(alloc, calls)?;
        let rest = Rest {
            number: self.number,
            calls: calls.len(),
        };
        Ok((rest, pieces))
    }

    fn piece(_alloc: Global, input: Piece) -> Result<Served, AllocError> {
        Ok(serve_piece(input))
    }

    fn end(
        alloc: Global,
        rest: Rest,
        outs: Vec<Served>,
    ) -> Result<(Counter, Vec<Reply>), AllocError>
        requires { (o : BatchContext ℕ PieceOf) × IsContextOf rest o × AllMeet Meets o.ins outs.items }
        ensures replies { IfOk result (λ p. (o : BatchContext ℕ PieceOf) → IsContextOf rest o
            → AllMeet Meets o.ins outs.items
            → p.1.items ≡ replies_to_all (of_counter o.before) o.calls) }
        ensures content { IfOk result (λ p. (o : BatchContext ℕ PieceOf) → IsContextOf rest o
            → AllMeet Meets o.ins outs.items
            → of_counter p.0 ≡ after_all (of_counter o.before) o.calls) }
    {
        let (number, replies) = join_pieces(alloc, rest.number, rest.calls, &outs)?;
        Ok((Counter { number }, replies))
    }
}
