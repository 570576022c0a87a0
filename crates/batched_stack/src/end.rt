//! Reassembles a stack and its replies from the outs of the pieces.
ghost use Rattle.std.specs.Prelude.{◌≡◌, ℕ, ◌+◌, ◌-◌, ◌≤◌, ◌<◌, ◌^◌, ◌++◌, [], length, map, replicate, IfOk, OnOk};
ghost use Rattle.batched_stack.specs.Lists.{lists, rooms_in};
ghost use Rattle.batched_stack.specs.Code.End.{with_outs, HavePopped, popped_item, number_replies, stack_replies};

use crate::begin::length_of;
use crate::piece::Served;
use crate::stripe::Stripe;
use seq_objects::Reply;
use std::alloc::{AllocError, Global};

/// 16 empty vectors, one for each stripe, in reused memory.
fn empty_vectors(alloc: Global, memory: Vec<Vec<u32>>) -> Result<Vec<Vec<u32>>, AllocError>
    ensures { IfOk result (λ v. map (λ items. items.items) v.items ≡ replicate 16 []) }
{
    let mut vectors = memory;
    vectors.clear();
    for _ in 0..16u32 {
        vectors.push(Vec::new(alloc))?;
    }
    Ok(vectors)
}

/// Returns each piece's stripe to its place. Also returns the items popped from each stripe; the outer vector reuses
/// `memory`.
pub(crate) fn put_back(
    alloc: Global,
    stripes: Vec<Stripe>,
    outs: Vec<Served>,
    memory: Vec<Vec<u32>>,
) -> Result<(Vec<Stripe>, Vec<Vec<u32>>), AllocError>
    requires { length stripes.items ≡ 16 }
    ensures sixteen { IfOk result (λ p. length p.0.items ≡ 16) }
    ensures popped_sixteen { IfOk result (λ p. length p.1.items ≡ 16) }
    ensures lists { IfOk result (λ p. lists p.0.items ≡ with_outs (λ out. out.stripe.items.items) (lists stripes.items) outs.items) }
    ensures rooms { IfOk result (λ p. rooms_in p.0.items ≡ with_outs (λ out. out.stripe.room) (rooms_in stripes.items) outs.items) }
    ensures popped { IfOk result (λ p. map (λ items. items.items) p.1.items ≡ with_outs (λ out. out.popped.items) (replicate 16 []) outs.items) }
{
    let mut stripes = stripes;
    let mut popped = empty_vectors(alloc, memory)?;
    for out in outs {
        let Served {
            number,
            stripe,
            popped: taken,
        } = out;
        stripes[number] = stripe;
        popped[number] = taken;
    }
    Ok((stripes, popped))
}

/// The rooms of the stripes, in reused memory.
pub(crate) fn rooms_of(memory: Vec<u64>, stripes: &[Stripe]) -> Result<Vec<u64>, AllocError>
    ensures { IfOk result (λ v. v.items ≡ rooms_in stripes.now) }
{
    let mut rooms = memory;
    rooms.clear();
    for stripe in stripes {
        rooms.push(stripe.room)?;
    }
    Ok(rooms)
}

/// The item at `place`, counted from the bottom, looked up among the popped items. The stack had `total` items, pushes
/// included, and keeps the first `left`.
fn popped_item(popped: &[Vec<u32>], total: usize, left: usize, place: usize) -> u32
    requires sixteen { length popped.now ≡ 16 }
    requires fits { total < 2 ^ 63 }
    requires popped { HavePopped (map (λ items. items.items) popped.now) total left }
    requires above { left ≤ place }
    requires below { place < total }
    ensures { result ≡ popped_item (map (λ items. items.items) popped.now) total place }
{
    let taken = &popped[place % 16];
    taken[length_of(place % 16, total) - 1 - place / 16]
}

/// Appends the replies to the pops that find an item, the top item first.
fn push_numbers(
    replies: &mut Vec<Reply>,
    popped: &[Vec<u32>],
    total: usize,
    left: usize,
) -> Result<(), AllocError>
    requires sixteen { length popped.now ≡ 16 }
    requires fits { total < 2 ^ 63 }
    requires popped { HavePopped (map (λ items. items.items) popped.now) total left }
    requires most { left ≤ total }
    ensures { OnOk result (replies.new.items ≡ replies.old.items ++ number_replies (map (λ items. items.items) popped.now) total (total - left)) }
{
    for i in 0..total - left {
        let item = popped_item(popped, total, left, total - 1 - i);
        replies.push(Reply::Number(u64::from(item)))?;
    }
    Ok(())
}

/// Appends a reply, `times` times.
fn push_same(replies: &mut Vec<Reply>, reply: Reply, times: usize) -> Result<(), AllocError>
    ensures { OnOk result (replies.new.items ≡ replies.old.items ++ replicate times reply) }
{
    for _ in 0..times {
        replies.push(reply)?;
    }
    Ok(())
}

/// The replies to a batch: to the pushes, to the pops that find an item, and to the pops that find none.
pub(crate) fn replies_of(
    alloc: Global,
    popped: &[Vec<u32>],
    total: usize,
    left: usize,
    pushes: usize,
    pops: usize,
) -> Result<Vec<Reply>, AllocError>
    requires sixteen { length popped.now ≡ 16 }
    requires fits { total < 2 ^ 63 }
    requires popped { HavePopped (map (λ items. items.items) popped.now) total left }
    requires most { left ≤ total }
    requires found { total - left ≤ pops }
    ensures { IfOk result (λ v. v.items ≡ stack_replies (map (λ items. items.items) popped.now) total left pushes pops) }
{
    let mut replies = Vec::with_capacity(alloc, pushes.saturating_add(pops))?;
    push_same(&mut replies, Reply::Unit, pushes)?;
    push_numbers(&mut replies, popped, total, left)?;
    push_same(&mut replies, Reply::Empty, pops - (total - left))?;
    Ok(replies)
}
