//! The walk over the items of a text, which gives the places of their leaves.
ghost use Rattle.std.specs.Prelude.{◌≡◌, ◌+◌, ◌<◌, ◌≤◌, ◌^◌, ◌∷◌, ◌++◌, [], length, map, OnOk, slice_index};
ghost use Rattle.job_syntax.specs.Grammar.{block_then, nothing, items_words};
ghost use Rattle.job_syntax.specs.Views.{block_kind_of, item_of, items_of};
ghost use Rattle.job_lang.specs.Meaning.{each_copy};
ghost use Rattle.leaf_places.specs.Code.Walk.{outside, in_copy, places_from};

use crate::place::LeafPlace;
use job_lang::item_word_count;
use job_syntax::{BlockKind, Item};
use std::alloc::{AllocError, Global};

/// Appends the place of a leaf outside every loop, whose item begins at the word `first`.
fn push_leaf(
    alloc: Global,
    lines: &[u32],
    first: usize,
    places: &mut Vec<LeafPlace>,
) -> Result<(), AllocError>
    requires within { first < length lines.now }
    requires short { length lines.now < 2 ^ 61 }
    ensures { OnOk result (places.new.items ≡ places.old.items ++ outside (slice_index lines.now first) ∷ []) }
{
    places.push(LeafPlace::on_line(alloc, lines[first]))?;
    Ok(())
}

/// Appends the places of one copy's leaves, which are `inside` the loop.
fn push_copy(
    alloc: Global,
    copy: u32,
    inside: &[LeafPlace],
    places: &mut Vec<LeafPlace>,
) -> Result<(), AllocError>
    ensures { OnOk result (places.new.items ≡ places.old.items ++ map (in_copy copy) inside.now) }
{
    for place in inside {
        places.push(place.in_copy(alloc, copy)?)?;
    }
    Ok(())
}

/// Appends the places of the leaves of all copies of a loop, each of which has those `inside`. Copies without leaves
/// take no time.
fn push_copies(
    alloc: Global,
    copies: u32,
    inside: &[LeafPlace],
    places: &mut Vec<LeafPlace>,
) -> Result<(), AllocError>
    ensures { OnOk result
        (places.new.items ≡ places.old.items ++ each_copy copies (λ k. map (in_copy k) inside.now)) }
{
    if inside.is_empty() {
        return Ok(());
    }
    for copy in 0..copies {
        push_copy(alloc, copy, inside, places)?;
    }
    Ok(())
}

/// Appends the places of the leaves that the items make outside the loops around them. The items begin at the word
/// `first`, and the words have these lines.
#[cycle(walking)]
#[tactic(auto, using(job_lang::proofs::LimitLemmas::WordCounts::word_count_item, job_lang::proofs::Weights::weight_item))]
pub(crate) fn push_items(
    alloc: Global,
    lines: &[u32],
    first: usize,
    items: &[Item],
    places: &mut Vec<LeafPlace>,
) -> Result<(), AllocError>
    requires within { first + length (items_words (items_of items.now)) ≤ length lines.now }
    requires short { length lines.now < 2 ^ 61 }
    ensures { OnOk result
        (places.new.items ≡ places.old.items ++ places_from lines.now first (items_of items.now)) }
{
    let mut begin = first;
    for item in items {
        push_item(alloc, lines, begin, item, places)?;
        begin += item_word_count(item);
    }
    Ok(())
}

/// Appends the places of the leaves that the item makes.
#[cycle(walking)]
#[tactic(auto, using(crate::proofs::Walking::item_writes, crate::proofs::Walking::leaf_places, crate::proofs::Walking::let_places, crate::proofs::Walking::block_places, job_lang::proofs::Weights::weight_block))]
fn push_item(
    alloc: Global,
    lines: &[u32],
    first: usize,
    item: &Item,
    places: &mut Vec<LeafPlace>,
) -> Result<(), AllocError>
    requires within { first + length (items_words (item_of item.now)) ≤ length lines.now }
    requires short { length lines.now < 2 ^ 61 }
    ensures { OnOk result
        (places.new.items ≡ places.old.items ++ places_from lines.now first (item_of item.now)) }
{
    match item {
        Item::Leaf(_) => push_leaf(alloc, lines, first, places),
        Item::Let(_, _) => push_leaf(alloc, lines, first, places),
        Item::Block(kind, inside) => push_block(alloc, lines, first, *kind, inside, places),
    }
}

/// Appends the places of the leaves that a block makes.
#[cycle(walking)]
#[tactic(auto, using(crate::proofs::Copying::loop_places, crate::proofs::Copying::series_places, crate::proofs::Walking::loop_words, crate::proofs::Walking::series_words))]
fn push_block(
    alloc: Global,
    lines: &[u32],
    first: usize,
    kind: BlockKind,
    inside: &[Item],
    places: &mut Vec<LeafPlace>,
) -> Result<(), AllocError>
    requires within { first + length (items_words (block_then (block_kind_of kind) (items_of inside.now) nothing))
        ≤ length lines.now }
    requires short { length lines.now < 2 ^ 61 }
    ensures { OnOk result
        (places.new.items
        ≡ places.old.items
        ++ places_from lines.now first (block_then (block_kind_of kind) (items_of inside.now) nothing)) }
{
    if kind.is_loop() {
        push_loop(alloc, lines, first + 3, kind.copies(), inside, places)
    } else {
        push_items(alloc, lines, first + 2, inside, places)
    }
}

/// Appends the places of the leaves that so many copies of the items make. Items without copies are not walked over.
#[cycle(walking)]
fn push_loop(
    alloc: Global,
    lines: &[u32],
    first: usize,
    copies: u32,
    items: &[Item],
    places: &mut Vec<LeafPlace>,
) -> Result<(), AllocError>
    requires within { first + length (items_words (items_of items.now)) ≤ length lines.now }
    requires short { length lines.now < 2 ^ 61 }
    ensures { OnOk result
        (places.new.items
        ≡ places.old.items
        ++ each_copy copies (λ k. map (in_copy k) (places_from lines.now first (items_of items.now)))) }
{
    if copies == 0 {
        return Ok(());
    }
    let mut inside = Vec::new(alloc);
    push_items(alloc, lines, first, items, &mut inside)?;
    push_copies(alloc, copies, &inside, places)
}
