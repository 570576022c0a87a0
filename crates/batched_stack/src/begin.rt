//! Cuts a batch into pieces, each with one stripe.
ghost use Rattle.std.specs.Prelude.{◌≡◌, ℕ, ◌+◌, ◌-◌, ◌%◌, ◌<◌, ◌≤◌, ◌^◌, ◌++◌, nat_lt, [], ◌∷◌, false, filter, length, map, slice_index, slice_index_or, slice_set, IfOk, OnOk, option_to_list};
ghost use Rattle.std.specs.List.{AllByRecursion, range_with_len};
ghost use Rattle.seq_objects.specs.Objects.{has};
ghost use Rattle.batched_stack.specs.Calls.{pushes_in, pops_in, pushes_of, pops_of};
ghost use Rattle.batched_stack.specs.Stripes.{stripe, stripe_length};
ghost use Rattle.batched_stack.specs.Lists.{lists, rooms_in};
ghost use Rattle.batched_stack.specs.Pieces.{pushes_to, pops_from, is_called, piece_numbers, numbers_in};
ghost use Rattle.batched_stack.specs.Code.Begin.{AreStripes, IsCutOf, IsTaken, IsSame};
ghost use Rattle.batched_stack.specs.declared.piece.Piece.{Piece as PieceOf};

use crate::piece::Piece;
use crate::stripe::Stripe;
use crate::stripe::room::no_stripe;
use seq_objects::{Call, Op};
use std::alloc::{AllocError, Global};
use std::mem;

/// The item that an operation pushes, if it is a push.
fn item_in(op: Op) -> Option<u32>
    ensures { option_to_list result ≡ pushes_in op }
{
    match op {
        Op::Push(_, item) => Some(item),
        _ => None,
    }
}

/// 1 for a pop, 0 for any other operation.
fn pops_in(op: Op) -> usize
    ensures is { result ≡ pops_in op }
    ensures most { result ≤ 1 }
{
    match op {
        Op::Pop(_) => 1,
        _ => 0,
    }
}

/// The items that a batch pushes, in call order. The capacity is the number of calls less `pops`.
pub(crate) fn pushes_of(alloc: Global, calls: &[Call], pops: usize) -> Result<Vec<u32>, AllocError>
    ensures { IfOk result (λ v. v.items ≡ pushes_of calls.now) }
{
    let mut items = Vec::with_capacity(alloc, calls.len().saturating_sub(pops))?;
    for call in calls {
        if let Some(item) = item_in(call.op) {
            items.push(item)?;
        }
    }
    Ok(items)
}

/// How many of the calls are pops.
pub(crate) fn pops_of(calls: &[Call]) -> usize
    ensures { result ≡ pops_of calls.now }
{
    let mut pops = 0;
    for call in calls {
        pops += pops_in(call.op);
    }
    pops
}

/// Every sixteenth item, starting at index `first`.
fn each_sixteenth(alloc: Global, items: &[u32], first: usize) -> Result<Vec<u32>, AllocError>
    requires { first < 16 }
    ensures { IfOk result (λ v. v.items ≡ stripe first items.now) }
{
    let mut found = Vec::with_capacity(alloc, items.len().saturating_sub(first).div_ceil(16))?;
    let mut at = first;
    while at < items.len() {
        found.push(items[at])?;
        at += 16;
    }
    Ok(found)
}

/// How many of the first `count` items of a stack lie in stripe `number`.
pub(crate) fn length_of(number: usize, count: usize) -> usize
    requires low { number < 16 }
    requires fits { count < 2 ^ 63 }
    ensures { result ≡ stripe_length number count }
{
    (count + 15 - number) / 16
}

/// The index of the first push that goes to stripe `number`, on a stack of `count` items. The batch may have fewer
/// pushes.
fn first_push(number: usize, count: usize) -> usize
    requires { number < 16 }
    ensures { result ≡ (number + 16 - count % 16) % 16 }
{
    (number + 16 - count % 16) % 16
}

/// How many of the batch's pops take an item of stripe `number`, where `total` counts the items with the pushed ones.
#[tactic(auto, using(crate::proofs::BeginLemmas::Parts::pops_from_is))]
fn pops_of_stripe(number: usize, total: usize, pops: usize) -> usize
    requires low { number < 16 }
    requires fits { total < 2 ^ 63 }
    ensures { result ≡ pops_from number total pops }
{
    length_of(number, total) - length_of(number, total.saturating_sub(pops))
}

/// Whether a stripe has a push or a pop. `first` is the index of its first push, `pops` counts its own pops.
fn has_calls(first: usize, pushes: &[u32], pops: usize) -> bool
    requires { first < 16 }
    ensures { result ≡ nat_lt 0 (stripe_length first (length pushes.now) + pops) }
{
    first < pushes.len() || pops > 0
}

/// Moves a stripe into a new piece with its calls. An empty stripe is left in its place.
fn add_piece(
    stripes: &mut Vec<Stripe>,
    pieces: &mut Vec<Piece>,
    alloc: Global,
    number: usize,
    pushes: Vec<u32>,
    pops: usize,
) -> Result<(), AllocError>
    requires sixteen { length stripes.old.items ≡ 16 }
    requires low { number < 16 }
    requires few { pops ≤ length (slice_index_or (lists stripes.old.items) number []) + length pushes.items }
    ensures sixteen { OnOk result (length stripes.new.items ≡ 16) }
    ensures lists { OnOk result (lists stripes.new.items ≡ slice_set (lists stripes.old.items) number []) }
    ensures rooms { OnOk result ((j : ℕ) → (j ≡ number → ⊥)
        → slice_index (rooms_in stripes.new.items) j ≡ slice_index (rooms_in stripes.old.items) j) }
    ensures piece { OnOk result ((piece : PieceOf) × (pieces.new.items ≡ pieces.old.items ++ piece ∷ []) × IsTaken stripes.old.items number pushes.items pops piece) }
{
    let stripe = mem::replace(&mut stripes[number], no_stripe(alloc));
    pieces.push(Piece {
        number,
        stripe,
        pushes,
        pops,
    })?;
    Ok(())
}

/// Makes a piece for each stripe that has a push, or a pop that finds an item. Returns the 16 stripes, with empty ones
/// in place of those that moved, and the pieces.
fn cut_called(
    alloc: Global,
    stripes: Vec<Stripe>,
    count: usize,
    pushes: &[u32],
    pops: usize,
) -> Result<(Vec<Stripe>, Vec<Piece>), AllocError>
    requires stripes { AreStripes stripes.items count }
    requires fits { count + length pushes.now < 2 ^ 63 }
    ensures numbers { IfOk result (λ p. numbers_in p.1.items ≡ filter (is_called count pushes.now pops) (range_with_len 0 16)) }
    ensures each { IfOk result (λ p. AllByRecursion (IsCutOf stripes.items count pushes.now pops) p.1.items) }
    ensures sixteen { IfOk result (λ p. length p.0.items ≡ 16) }
    ensures kept { IfOk result (λ p. (j : ℕ) → is_called count pushes.now pops j ≡ false
        → IsSame stripes.items p.0.items j) }
{
    let mut stripes = stripes;
    let mut pieces = Vec::with_capacity(alloc, pushes.len().saturating_add(pops).min(16))?;
    for number in 0..16usize {
        let first = first_push(number, count);
        let taken = pops_of_stripe(number, count + pushes.len(), pops);
        if has_calls(first, pushes, taken) {
            let mine = each_sixteenth(alloc, pushes, first)?;
            add_piece(&mut stripes, &mut pieces, alloc, number, mine, taken)?;
        }
    }
    Ok((stripes, pieces))
}

/// Cuts a batch into at least one piece: stripe 0 gets a piece if no stripe has a call. Returns the stripes and the
/// pieces, as `cut_called` does.
pub(crate) fn cut_pieces(
    alloc: Global,
    stripes: Vec<Stripe>,
    count: usize,
    pushes: &[u32],
    pops: usize,
) -> Result<(Vec<Stripe>, Vec<Piece>), AllocError>
    requires stripes { AreStripes stripes.items count }
    requires fits { count + length pushes.now < 2 ^ 63 }
    ensures numbers { IfOk result (λ p. numbers_in p.1.items ≡ piece_numbers count pushes.now pops) }
    ensures each { IfOk result (λ p. AllByRecursion (IsCutOf stripes.items count pushes.now pops) p.1.items) }
    ensures sixteen { IfOk result (λ p. length p.0.items ≡ 16) }
    ensures kept { IfOk result (λ p. (j : ℕ) → j < 16 → has j (numbers_in p.1.items) ≡ false
        → IsSame stripes.items p.0.items j) }
{
    let (mut stripes, mut pieces) = cut_called(alloc, stripes, count, pushes, pops)?;
    if pieces.is_empty() {
        add_piece(&mut stripes, &mut pieces, alloc, 0, Vec::new(alloc), 0)?;
    }
    Ok((stripes, pieces))
}
