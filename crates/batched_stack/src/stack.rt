//! The stack, and its implementation of `Batched`.
ghost use Rattle.std.specs.Prelude.{◌≡◌, [], length, IfOk, OnOk};
ghost use Rattle.seq_objects.specs.Serial.{replies_to_all, after_all, of_stack};
ghost use Rattle.seq_objects.specs.Pieces.{AllMeet, BatchContext};
ghost use Rattle.batched_stack.specs.declared.piece.Piece.{Piece as PieceOf};
ghost use Rattle.batched_stack.specs.Stripes.{StackView};
ghost use Rattle.batched_stack.specs.Rooms.{AreNext};
ghost use Rattle.batched_stack.specs.Copies.{first_rooms};
ghost use Rattle.batched_stack.specs.Code.Invariant.{AreEmpty};
ghost use Rattle.batched_stack.specs.Calls.{MayServe};
ghost use Rattle.batched_stack.specs.Pieces.{Cut, Meets, IsContextOf};

use crate::begin::{cut_pieces, pops_of, pushes_of};
use crate::end::{put_back, replies_of, rooms_of};
use crate::piece::{Piece, Rest, Served};
use crate::serve::serve_piece;
use crate::stripe::Stripe;
use crate::stripe::room::empty_stripe;
use seq_objects::{Batched, Call, Reply};
use std::alloc::{AllocError, Global};
use std::marker::Model;

/// A stack in 16 stripes. Contracts see its items, the top last, and the rooms of its stripes. `popped` is what the
/// last batch popped, kept as memory for the next.
#[derive(Drop)]
pub struct Stack {
    stripes: Vec<Stripe>,
    rooms: Vec<u64>,
    popped: Vec<Vec<u32>>,
    count: usize,
}

impl Model for Stack {
    ghost use Rattle.batched_stack.specs.Stripes.{StackView, items_of};
    ghost use Rattle.batched_stack.specs.Lists.{lists};
    ghost use Rattle.batched_stack.specs.Code.Invariant.{StackInvariant};

    ghost Value = { StackView };

    ghost view = { λ s. record { items = items_of (lists s.stripes.items) s.count; rooms = s.rooms.items } };

    ghost invariant = { λ s. StackInvariant s.stripes.items s.rooms.items s.count };
}

/// More items than any memory holds. It keeps the numbers of items and pushes, and their sum, below 2^63.
const TOO_MANY: usize = 1 << 62;

/// The 16 stripes of an empty stack, each with its first room.
fn empty_stripes(alloc: Global) -> Result<Vec<Stripe>, AllocError>
    ensures { IfOk result (λ v. AreEmpty v.items) }
{
    let mut stripes = Vec::with_capacity(alloc, 16)?;
    for _ in 0..16u32 {
        stripes.push(empty_stripe(alloc)?)?;
    }
    Ok(stripes)
}

impl Stack {
    /// An empty stack.
    pub fn new(alloc: Global) -> Result<Stack, AllocError>
        ensures items { IfOk result (λ s. s.items ≡ []) }
        ensures rooms { IfOk result (λ s. s.rooms ≡ first_rooms) }
    {
        let stripes = empty_stripes(alloc)?;
        let rooms = rooms_of(Vec::with_capacity(alloc, 16)?, &stripes)?;
        Ok(Stack {
            stripes,
            rooms,
            popped: Vec::with_capacity(alloc, 16)?,
            count: 0,
        })
    }

    /// The rooms of the 16 stripes: the capacity of each stripe's vector, in items.
    pub fn rooms(&self) -> &[u64]
        ensures rooms { result.now ≡ self.now.rooms }
        ensures sixteen { length result.now ≡ 16 }
    {
        &self.rooms
    }
}

impl Batched for Stack {
    type In = Piece;

    type Out = Served;

    type Rest = Rest;

    const MOST: u32 = 16;

    ghost MOST = { 16 };

    ghost content = { λ stack. of_stack stack.items };

    ghost may_serve = { MayServe };

    ghost cut = { Cut };

    ghost meets = { Meets };

    ghost is_context_of = { IsContextOf };

    fn begin(self, alloc: Global, calls: &[Call]) -> Result<(Rest, Vec<Piece>), AllocError> {
        let pops = pops_of(calls);
        let items = pushes_of(alloc, calls, pops)?;
        let Stack {
            stripes,
            rooms,
            popped,
            count,
        } = self;
        if count >= TOO_MANY || items.len() >= TOO_MANY {
            return Err(AllocError);
        }
        let (stripes, pieces) = cut_pieces(alloc, stripes, count, &items, pops)?;
        let rest = Rest {
            stripes,
            rooms,
            popped,
            count,
            pushes: items.len(),
            pops,
        };
        Ok((rest, pieces))
    }

    fn piece(alloc: Global, input: Piece) -> Result<Served, AllocError> {
        serve_piece(alloc, input)
    }

    fn end(alloc: Global, rest: Rest, outs: Vec<Served>) -> Result<(Stack, Vec<Reply>), AllocError>
        requires { (o : BatchContext StackView PieceOf) × IsContextOf rest o × AllMeet Meets o.ins outs.items }
        ensures replies { IfOk result (λ p. (o : BatchContext StackView PieceOf)
            → IsContextOf rest o → AllMeet Meets o.ins outs.items
            → p.1.items ≡ replies_to_all (of_stack o.before.items) o.calls) }
        ensures content { IfOk result (λ p. (o : BatchContext StackView PieceOf)
            → IsContextOf rest o → AllMeet Meets o.ins outs.items
            → of_stack p.0.items ≡ after_all (of_stack o.before.items) o.calls) }
        // The room of each stripe follows the rule of rooms.
        ensures rooms { IfOk result (λ p. (o : BatchContext StackView PieceOf) → IsContextOf rest o
            → AllMeet Meets o.ins outs.items
            → AreNext o.before.rooms (length p.0.items) p.0.rooms) }
    {
        let Rest {
            stripes,
            rooms: old_rooms,
            popped: old_popped,
            count,
            pushes,
            pops,
        } = rest;
        let total = count + pushes;
        let left = total.saturating_sub(pops);
        let (stripes, popped) = put_back(alloc, stripes, outs, old_popped)?;
        let rooms = rooms_of(old_rooms, &stripes)?;
        let replies = replies_of(alloc, &popped, total, left, pushes, pops)?;
        let stack = Stack {
            stripes,
            rooms,
            popped,
            count: left,
        };
        Ok((stack, replies))
    }
}
