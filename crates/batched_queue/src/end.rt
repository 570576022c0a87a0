//! The end of a batch: the stripes of its pieces go back, and its replies are made.
ghost use Rattle.std.specs.Prelude.{◌≡◌, ℕ, ◌+◌, ◌-◌, ◌≤◌, ◌<◌, ◌^◌, ◌++◌, [], length, map, replicate, IfOk, OnOk};
ghost use Rattle.batched_queue.specs.Code.Stripes.{lists};
ghost use Rattle.batched_queue.specs.Code.Pieces.{with_outs};
ghost use Rattle.batched_queue.specs.Code.Replies.{HaveTaken, taken_item, number_replies, batch_replies};

use crate::piece::Served;
use seq_objects::Reply;
use std::alloc::{AllocError, Global};
use std::collections::VecDeque;

/// An empty vector for each stripe.
fn empty_vectors(alloc: Global) -> Result<Vec<Vec<u32>>, AllocError>
    ensures { IfOk result (λ v. map (λ items. items.items) v.items ≡ replicate 16 []) }
{
    let mut vectors = Vec::with_capacity(alloc, 16)?;
    for _ in 0..16u32 {
        vectors.push(Vec::new(alloc))?;
    }
    Ok(vectors)
}

/// Puts each stripe that a piece had back in its place, and returns the items that were taken from each stripe.
pub(crate) fn put_back(
    alloc: Global,
    stripes: Vec<VecDeque<u32>>,
    outs: Vec<Served>,
) -> Result<(Vec<VecDeque<u32>>, Vec<Vec<u32>>), AllocError>
    requires { length stripes.items ≡ 16 }
    ensures sixteen { IfOk result (λ p. length p.0.items ≡ 16) }
    ensures taken_sixteen { IfOk result (λ p. length p.1.items ≡ 16) }
    ensures lists { IfOk result (λ p. lists p.0.items ≡ with_outs (λ out. out.items.items) (lists stripes.items) outs.items) }
    ensures taken { IfOk result (λ p. map (λ items. items.items) p.1.items ≡ with_outs (λ out. out.taken.items) (replicate 16 []) outs.items) }
{
    let mut stripes = stripes;
    let mut all = empty_vectors(alloc)?;
    for out in outs {
        let Served {
            number,
            items,
            taken,
        } = out;
        stripes[number] = items;
        all[number] = taken;
    }
    Ok((stripes, all))
}

/// The item that get `i` takes, among those that were taken from each stripe.
fn taken_item(taken: &[Vec<u32>], first: usize, found: usize, i: usize) -> u32
    requires sixteen { length taken.now ≡ 16 }
    requires low { first < 16 }
    requires fits { found < 2 ^ 63 }
    requires taken { HaveTaken (map (λ items. items.items) taken.now) first found }
    requires below { i < found }
    ensures { result ≡ taken_item (map (λ items. items.items) taken.now) first i }
{
    let of_stripe = &taken[(first + i) % 16];
    of_stripe[i / 16]
}

/// Appends the replies to the gets that find an item.
fn push_numbers(
    replies: &mut Vec<Reply>,
    taken: &[Vec<u32>],
    first: usize,
    found: usize,
) -> Result<(), AllocError>
    requires sixteen { length taken.now ≡ 16 }
    requires low { first < 16 }
    requires fits { found < 2 ^ 63 }
    requires taken { HaveTaken (map (λ items. items.items) taken.now) first found }
    ensures { OnOk result (replies.new.items ≡ replies.old.items ++ number_replies (map (λ items. items.items) taken.now) first found) }
{
    for i in 0..found {
        let item = taken_item(taken, first, found, i);
        replies.push(Reply::Number(u64::from(item)))?;
    }
    Ok(())
}

/// Appends a reply, `times` times.
fn push_same(replies: &mut Vec<Reply>, reply: Reply, times: usize) -> Result<(), AllocError>
    ensures { OnOk result (replies.new.items ≡ replies.old.items ++ replicate times reply) }
{
    for _ in 0..times {
        replies.push(reply)?;
    }
    Ok(())
}

/// The replies to the puts, to the gets that find an item, and to the other gets.
pub(crate) fn replies_of(
    alloc: Global,
    taken: &[Vec<u32>],
    first: usize,
    found: usize,
    puts: usize,
    gets: usize,
) -> Result<Vec<Reply>, AllocError>
    requires sixteen { length taken.now ≡ 16 }
    requires low { first < 16 }
    requires fits { found < 2 ^ 63 }
    requires taken { HaveTaken (map (λ items. items.items) taken.now) first found }
    requires most { found ≤ gets }
    ensures { IfOk result (λ v. v.items ≡ batch_replies (map (λ items. items.items) taken.now) first found puts gets) }
{
    let mut replies = Vec::with_capacity(alloc, puts.saturating_add(gets))?;
    push_same(&mut replies, Reply::Unit, puts)?;
    push_numbers(&mut replies, taken, first, found)?;
    push_same(&mut replies, Reply::Empty, gets - found)?;
    Ok(replies)
}
