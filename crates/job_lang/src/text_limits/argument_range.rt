//! Arguments that are out of range, those that do not fit 32 bits in some copy: whether there is one, and the search for
//! the line of the first.
ghost use Rattle.std.specs.Prelude.{◌≡◌, [], ◌∷◌, IfSome, IfNone};
ghost use Rattle.std.specs.List.{list_any};
ghost use Rattle.job_lang.specs.Limits.{copies_inside, is_out_of_range, leaf_range_flags, range_flags};
ghost use Rattle.job_lang.specs.Code.Searches.{dependents, Finds};
ghost use Rattle.job_syntax.specs.Views.{argument_word, leaf_of, block_kind_of, item_of, items_of};

use crate::arguments::leaf_argument;
use job_syntax::{Argument, BlockKind, Cursor, Item, Leaf, Word, WordOnLine};

/// Takes words up to and with the next that depends on the copy, and gives that one.
fn next_dependent(words: &mut Cursor) -> Option<WordOnLine>
    ensures some { IfSome result (λ word. dependents words.old ≡ word ∷ dependents words.new) }
    ensures none { IfNone result ((dependents words.old ≡ []) × (dependents words.new ≡ [])) }
{
    while let Some(token) = words.next() {
        if matches!(token.word, Word::Copies(_)) {
            return Some(token);
        }
    }
    None
}

/// The number of copies of the innermost loop inside a block, where `copies` is that outside it.
fn copies_inside(copies: u32, kind: BlockKind) -> u32
    ensures { result ≡ copies_inside copies (block_kind_of kind) }
{
    match kind {
        BlockKind::Seq | BlockKind::Par => copies,
        BlockKind::For(number) | BlockKind::Pfor(number) => number,
    }
}

/// Whether the number does not fit 32 bits in the last of the copies, where it is largest.
fn is_out_of_range(copies: u32, factor: u32, addend: u32) -> bool
    ensures { result ≡ is_out_of_range copies (factor, addend) }
{
    if copies == 0 {
        return false;
    }
    let last = u64::from(copies - 1);
    u64::from(factor) * last + u64::from(addend) > u64::from(u32::MAX)
}

/// Whether the leaf's argument is out of range in some copy.
fn is_leaf_out_of_range(copies: u32, leaf: Leaf) -> bool
    ensures { result ≡ list_any (λ flag. flag) (leaf_range_flags copies (leaf_of leaf)) }
{
    let Some(Argument::Copies(factor, addend)) = leaf_argument(leaf) else {
        return false;
    };
    is_out_of_range(copies, factor, addend)
}

/// Whether an argument of the items is out of range in some copy.
#[cycle(testing)]
pub(crate) fn any_out_of_range(copies: u32, items: &[Item]) -> bool
    ensures { result ≡ list_any (λ flag. flag) (range_flags copies (items_of items.now)) }
{
    for item in items {
        if is_item_out_of_range(copies, item) {
            return true;
        }
    }
    false
}

/// Whether an argument of the item is out of range in some copy.
#[cycle(testing)]
#[tactic(auto, using(crate::proofs::LimitLemmas::ArgumentRanges::range_flags_of_leaf, crate::proofs::LimitLemmas::ArgumentRanges::range_flags_of_let, crate::proofs::LimitLemmas::ArgumentRanges::range_flags_of_block))]
fn is_item_out_of_range(copies: u32, item: &Item) -> bool
    ensures { result ≡ list_any (λ flag. flag) (range_flags copies (item_of item.now)) }
{
    match item {
        Item::Leaf(leaf) | Item::Let(_, leaf) => is_leaf_out_of_range(copies, *leaf),
        Item::Block(kind, inside) => any_out_of_range(copies_inside(copies, *kind), inside),
    }
}

/// The line of the leaf's argument, if that is out of range in some copy.
#[tactic(auto, using(crate::proofs::LimitLemmas::ArgumentRanges::ran_out))]
fn out_of_range_in_leaf(copies: u32, leaf: Leaf, words: &mut Cursor) -> Option<u32>
    ensures { Finds (leaf_range_flags copies (leaf_of leaf)) words.old result words.new }
{
    let Some(Argument::Copies(factor, addend)) = leaf_argument(leaf) else {
        return None;
    };
    let Some(token) = next_dependent(words) else {
        return None;
    };
    if is_out_of_range(copies, factor, addend) {
        Some(token.line)
    } else {
        None
    }
}

/// The line of the first argument of the items that is out of range in some copy.
#[cycle(scanning)]
pub(crate) fn out_of_range_in_items(copies: u32, items: &[Item], words: &mut Cursor) -> Option<u32>
    ensures { Finds (range_flags copies (items_of items.now)) words.old result words.new }
{
    for item in items {
        if let Some(line) = out_of_range_in_item(copies, item, words) {
            return Some(line);
        }
    }
    None
}

/// The line of the first argument of the item that is out of range in some copy.
#[cycle(scanning)]
#[tactic(auto, using(crate::proofs::LimitLemmas::ArgumentRanges::range_flags_of_leaf, crate::proofs::LimitLemmas::ArgumentRanges::range_flags_of_let, crate::proofs::LimitLemmas::ArgumentRanges::range_flags_of_block))]
fn out_of_range_in_item(copies: u32, item: &Item, words: &mut Cursor) -> Option<u32>
    ensures { Finds (range_flags copies (item_of item.now)) words.old result words.new }
{
    match item {
        Item::Leaf(leaf) | Item::Let(_, leaf) => out_of_range_in_leaf(copies, *leaf, words),
        Item::Block(kind, inside) => out_of_range_in_items(
            copies_inside(copies, *kind),
            inside,
            words,
        ),
    }
}
