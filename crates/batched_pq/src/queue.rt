//! The queue, and its implementation of `Batched`.
ghost use Rattle.std.specs.Prelude.{◌≡◌, ℕ, List, [], IfOk};
ghost use Rattle.seq_objects.specs.Serial.{replies_to_all, after_all, of_bag};
ghost use Rattle.seq_objects.specs.Pieces.{AllMeet, BatchContext};
ghost use Rattle.batched_pq.specs.declared.piece.Piece.{Piece as PieceOf};
ghost use Rattle.batched_pq.specs.Calls.{MayServe};
ghost use Rattle.batched_pq.specs.Pieces.{Cut, Meets, IsContextOf};

use crate::begin::{inserts_of, pieces_of, takes_of};
use crate::end::replies_of;
use crate::piece::{Piece, Rest, Served};
use crate::serve::serve_piece;
use crate::shard::Shard;
use seq_objects::{Batched, Call, Reply};
use std::alloc::{AllocError, Global};
use std::marker::Model;

/// A priority queue of numbers, least first, in eight shards. Contracts see it as an ascending list, in which a number
/// may occur several times.
#[derive(Drop)]
pub struct Queue {
    shards: Vec<Shard>,
}

impl Model for Queue {
    ghost use Rattle.std.specs.Prelude.{◌≡◌, ℕ, List, length};
    ghost use Rattle.batched_pq.specs.Shards.{bag_of};

    ghost Value = { List ℕ };

    ghost view = { λ q. bag_of q.shards.items };

    ghost invariant = { λ q. length q.shards.items ≡ 8 };
}

impl Queue {
    /// An empty queue.
    pub fn new(alloc: Global) -> Result<Queue, AllocError>
        ensures { IfOk result (λ q. q ≡ []) }
    {
        let mut shards = Vec::with_capacity(alloc, 8)?;
        for _ in 0..8u32 {
            let shard = Shard::new(alloc)?;
            shards.push(shard)?;
        }
        Ok(Queue { shards })
    }
}

impl Batched for Queue {
    type In = Piece;

    type Out = Served;

    type Rest = Rest;

    const MOST: u32 = 8;

    ghost MOST = { 8 };

    ghost content = { of_bag };

    ghost may_serve = { MayServe };

    ghost cut = { Cut };

    ghost meets = { Meets };

    ghost is_context_of = { IsContextOf };

    fn begin(self, alloc: Global, calls: &[Call]) -> Result<(Rest, Vec<Piece>), AllocError> {
        let Queue { shards } = self;
        let takes = takes_of(calls);
        let inserts = inserts_of(alloc, calls, takes)?;
        let pieces = pieces_of(alloc, shards, &inserts, takes)?;
        let rest = Rest {
            inserts: inserts.len(),
            takes,
        };
        Ok((rest, pieces))
    }

    fn piece(alloc: Global, input: Piece) -> Result<Served, AllocError> {
        serve_piece(alloc, input)
    }

    fn end(alloc: Global, rest: Rest, outs: Vec<Served>) -> Result<(Queue, Vec<Reply>), AllocError>
        requires { (o : BatchContext (List ℕ) PieceOf) × IsContextOf rest o × AllMeet Meets o.ins outs.items }
        ensures replies { IfOk result (λ p. (o : BatchContext (List ℕ) PieceOf) → IsContextOf rest o
            → AllMeet Meets o.ins outs.items
            → p.1.items ≡ replies_to_all (of_bag o.before) o.calls) }
        ensures content { IfOk result (λ p. (o : BatchContext (List ℕ) PieceOf) → IsContextOf rest o
            → AllMeet Meets o.ins outs.items → of_bag p.0 ≡ after_all (of_bag o.before) o.calls) }
    {
        let mut shards = outs;
        let replies = replies_of(alloc, rest.inserts, rest.takes, &mut shards)?;
        Ok((Queue { shards }, replies))
    }
}
