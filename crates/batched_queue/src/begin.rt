//! Cutting a batch into pieces, each of one stripe.
ghost use Rattle.std.specs.Prelude.{◌≡◌, ◌+◌, ◌<◌, ◌≤◌, ◌^◌, ◌++◌, [], ◌∷◌, nat_lt, length, slice_index_or, slice_set, IfOk, OnOk};
ghost use Rattle.batched_queue.specs.Fifo.{numbers_put, operations};
ghost use Rattle.batched_queue.specs.Code.Stripes.{every, stripe, place_in, count_in, lists};
ghost use Rattle.batched_queue.specs.Code.Pieces.{IsTaken, IsCut};
ghost use Rattle.batched_queue.specs.declared.piece.Piece.{Piece as PieceOf};

use crate::call::FifoCall;
use crate::piece::Piece;
use std::alloc::{AllocError, Global};
use std::collections::VecDeque;
use std::mem;

/// The items that a batch puts, in the order of its calls.
pub(crate) fn puts_of(alloc: Global, calls: &[FifoCall]) -> Result<Vec<u32>, AllocError>
    ensures { IfOk result (λ v. v.items ≡ numbers_put (operations calls.now)) }
{
    let mut puts = Vec::with_capacity(alloc, calls.len())?;
    for call in calls {
        if let Some(item) = call.item {
            puts.push(item)?;
        }
    }
    Ok(puts)
}

/// How many items come before the first one of stripe `number`, where the oldest is of stripe `first`.
fn place_in(number: usize, first: usize) -> usize
    requires low { number < 16 }
    ensures place { result ≡ place_in number first }
    ensures low { result < 16 }
{
    (number + 16 - first % 16) % 16
}

/// How many of the first `count` items lie in a stripe, where the oldest is of stripe `first`.
fn count_in(number: usize, first: usize, count: usize) -> usize
    requires low { number < 16 }
    requires fits { count < 2 ^ 63 }
    ensures { result ≡ count_in first number count }
{
    (count + 15 - place_in(number, first)) / 16
}

/// Each sixteenth item, from the one at `place` on.
fn each_sixteenth(alloc: Global, items: &[u32], place: usize) -> Result<Vec<u32>, AllocError>
    requires { place < 16 }
    ensures { IfOk result (λ v. v.items ≡ every place items.now) }
{
    let mut found = Vec::with_capacity(alloc, items.len().saturating_sub(place).div_ceil(16))?;
    let mut at = place;
    while at < items.len() {
        found.push(items[at])?;
        at += 16;
    }
    Ok(found)
}

/// Moves a stripe into a new piece, with its puts and the number of its gets. An empty stripe is left in its place.
fn add_piece(
    stripes: &mut Vec<VecDeque<u32>>,
    pieces: &mut Vec<Piece>,
    alloc: Global,
    number: usize,
    puts: Vec<u32>,
    gets: usize,
) -> Result<(), AllocError>
    requires sixteen { length stripes.old.items ≡ 16 }
    requires low { number < 16 }
    ensures sixteen { OnOk result (length stripes.new.items ≡ 16) }
    ensures lists { OnOk result (lists stripes.new.items ≡ slice_set (lists stripes.old.items) number []) }
    ensures piece { OnOk result ((piece : PieceOf) × (pieces.new.items ≡ pieces.old.items ++ piece ∷ []) × IsTaken (lists stripes.old.items) number puts.items gets piece) }
{
    let items = mem::replace(&mut stripes[number], VecDeque::new(alloc));
    pieces.push(Piece {
        number,
        items,
        puts,
        gets,
    })?;
    Ok(())
}

/// A piece for each stripe that has a put or a get that finds an item, and the stripes that are left. The queue has
/// `count` items, of which the oldest is of stripe `first`, and `found` of the batch's gets find an item.
pub(crate) fn cut_pieces(
    alloc: Global,
    stripes: Vec<VecDeque<u32>>,
    first: usize,
    count: usize,
    puts: &[u32],
    found: usize,
) -> Result<(Vec<VecDeque<u32>>, Vec<Piece>), AllocError>
    requires sixteen { length stripes.items ≡ 16 }
    requires low { first < 16 }
    requires fits { first + count < 2 ^ 63 }
    requires few { found < 2 ^ 63 }
    ensures sixteen { IfOk result (λ p. length p.0.items ≡ 16) }
    ensures cut { IfOk result (λ p. IsCut (lists stripes.items) first count puts.now found (lists p.0.items) p.1.items) }
{
    let mut stripes = stripes;
    let mut pieces = Vec::with_capacity(alloc, puts.len().saturating_add(found).min(16))?;
    for number in 0..16usize {
        let place = place_in(number, first + count);
        let gets = count_in(number, first, found);
        if place < puts.len() || gets > 0 {
            let mine = each_sixteenth(alloc, puts, place)?;
            add_piece(&mut stripes, &mut pieces, alloc, number, mine, gets)?;
        }
    }
    Ok((stripes, pieces))
}
