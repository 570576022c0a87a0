//! Serves the calls of one stripe.
ghost use Rattle.std.specs.Prelude.{◌≡◌, ◌-◌, ◌≤◌, ◌++◌, length, take, drop, reverse, IfOk, OnOk, vec_capacity};
ghost use Rattle.batched_stack.specs.Pieces.{Meets};

use crate::piece::{Piece, Served};
use crate::stripe::Stripe;
use crate::stripe::room::settled_stripe;
use std::alloc::{AllocError, Global};

/// Pops the last `count` items and appends them to `popped`, the last one first.
fn take_newest(items: &mut Vec<u32>, count: usize, popped: &mut Vec<u32>) -> Result<(), AllocError>
    requires { count ≤ length items.old.items }
    ensures items { OnOk result (items.new.items ≡ take (length items.old.items - count) items.old.items) }
    ensures popped { OnOk result (popped.new.items ≡ popped.old.items ++ reverse (drop (length items.old.items - count) items.old.items)) }
    ensures room { OnOk result (vec_capacity items.new ≡ vec_capacity items.old) }
{
    for _ in 0..count {
        if let Some(item) = items.pop() {
            popped.push(item)?;
        }
    }
    Ok(())
}

/// Serves the calls of one stripe. An item that is pushed and popped in the same batch never enters the stripe.
pub(crate) fn serve_piece(alloc: Global, piece: Piece) -> Result<Served, AllocError>
    ensures { IfOk result (λ served. Meets piece served) }
{
    let Piece {
        number,
        stripe,
        mut pushes,
        pops,
    } = piece;
    let Stripe { mut items, room } = stripe;
    let mut popped = Vec::with_capacity(alloc, pops)?;
    let again = pops.min(pushes.len());
    take_newest(&mut pushes, again, &mut popped)?;
    take_newest(&mut items, pops - again, &mut popped)?;
    let stripe = settled_stripe(alloc, items, room, &pushes)?;
    Ok(Served {
        number,
        stripe,
        popped,
    })
}
