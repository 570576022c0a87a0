//! The rule of rooms, and vectors with the capacity that it gives.
ghost use Rattle.std.specs.Prelude.{◌≡◌, ◌+◌, ◌≤◌, ◌<◌, ◌^◌, ◌++◌, [], length, IfOk, vec_capacity};
ghost use Rattle.batched_stack.specs.Rooms.{IsNext};

use crate::stripe::Stripe;
use std::alloc::{AllocError, Global};

/// More items than any memory holds. Shorter lengths keep the arithmetic of rooms from overflow.
const TOO_LONG: usize = 1 << 60;

/// An empty stripe with the first room, 16.
pub(crate) fn empty_stripe(alloc: Global) -> Result<Stripe, AllocError>
    ensures items { IfOk result (λ s. s.items.items ≡ []) }
    ensures room { IfOk result (λ s. s.room ≡ 16) }
{
    Ok(Stripe {
        items: Vec::with_capacity(alloc, 16)?,
        room: 16,
    })
}

/// An empty stripe that stands in for one that a piece has.
///
/// Memory: none.
pub(crate) fn no_stripe(alloc: Global) -> Stripe
    ensures { result.items.items ≡ [] }
{
    Stripe {
        items: Vec::new(alloc),
        room: 0,
    }
}

/// The room of a stripe that has `len` items after a piece and had the room `room` before it.
fn next_room(room: u64, len: u64) -> u64
    requires { len < 2 ^ 60 }
    ensures { IsNext room len result }
{
    if len > room || (room > 16 && 8 * len < room) {
        let mut new = 16;
        while new < 2 * len {
            new *= 2;
        }
        new
    } else {
        room
    }
}

/// Appends items to a vector whose capacity suffices.
fn push_all(items: &mut Vec<u32>, more: &[u32])
    requires { length items.old.items + length more.now ≤ vec_capacity items.old }
    ensures items { items.new.items ≡ items.old.items ++ more.now }
    ensures room { vec_capacity items.new ≡ vec_capacity items.old }
{
    for item in more {
        items.push_reserved(*item);
    }
}

/// The items in a vector of capacity `next`. The vector stays the same where `next` is its room.
fn in_room(alloc: Global, items: Vec<u32>, room: u64, next: u64) -> Result<Vec<u32>, AllocError>
    requires real { vec_capacity items ≡ room }
    requires fits { length items.items ≤ next }
    ensures items { IfOk result (λ v. v.items ≡ items.items) }
    ensures room { IfOk result (λ v. vec_capacity v ≡ next) }
{
    if next == room {
        return Ok(items);
    }
    let mut copied = Vec::with_capacity(alloc, next as usize)?;
    push_all(&mut copied, &items);
    Ok(copied)
}

/// A stripe of `items` followed by `more`, with the room that the rule gives after `room`. A length of 2^60 or more is
/// answered as out of memory.
pub(crate) fn settled_stripe(
    alloc: Global,
    items: Vec<u32>,
    room: u64,
    more: &[u32],
) -> Result<Stripe, AllocError>
    requires { vec_capacity items ≡ room }
    ensures items { IfOk result (λ s. s.items.items ≡ items.items ++ more.now) }
    ensures room { IfOk result (λ s. IsNext room (length items.items + length more.now) s.room) }
{
    let len = items.len() + more.len();
    if len >= TOO_LONG {
        return Err(AllocError);
    }
    let next = next_room(room, len as u64);
    let mut items = in_room(alloc, items, room, next)?;
    push_all(&mut items, more);
    Ok(Stripe { items, room: next })
}
