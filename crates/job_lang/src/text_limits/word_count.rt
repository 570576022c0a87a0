//! The number of words that items write, by which the first word of an item is found.
ghost use Rattle.std.specs.Prelude.{◌≡◌, ◌<◌, ◌^◌, length};
ghost use Rattle.job_syntax.specs.Grammar.{leaf_words, kind_words, items_words};
ghost use Rattle.job_syntax.specs.Views.{leaf_of, block_kind_of, item_of, items_of};

use job_syntax::{BlockKind, Item, Leaf};

fn leaf_word_count(leaf: Leaf) -> usize
    ensures { result ≡ length (leaf_words (leaf_of leaf)) }
{
    match leaf {
        Leaf::Work(_) => 2,
        Leaf::Call { argument: None, .. } => 2,
        Leaf::Call {
            argument: Some(_),
            ..
        } => 3,
    }
}

/// The number of words that open a block, without its brace.
fn kind_word_count(kind: BlockKind) -> usize
    ensures { result ≡ length (kind_words (block_kind_of kind)) }
{
    match kind {
        BlockKind::Seq | BlockKind::Par => 1,
        BlockKind::For(_) | BlockKind::Pfor(_) => 2,
    }
}

/// The number of words that the items write.
#[cycle(counting_words)]
#[tactic(auto, using(crate::proofs::LimitLemmas::WordCounts::word_count_item, crate::proofs::Weights::weight_item))]
fn items_word_count(items: &[Item]) -> usize
    requires { length (items_words (items_of items.now)) < 2 ^ 63 }
    ensures { result ≡ length (items_words (items_of items.now)) }
{
    let mut word_count = 0;
    for item in items {
        word_count += item_word_count(item);
    }
    word_count
}

/// The number of words that the item writes.
#[cycle(counting_words)]
#[tactic(auto, using(crate::proofs::LimitLemmas::WordCounts::leaf_item_word_count, crate::proofs::LimitLemmas::WordCounts::let_item_word_count, crate::proofs::LimitLemmas::WordCounts::block_item_word_count, crate::proofs::Weights::weight_block))]
pub fn item_word_count(item: &Item) -> usize
    requires { length (items_words (item_of item.now)) < 2 ^ 63 }
    ensures { result ≡ length (items_words (item_of item.now)) }
{
    match item {
        Item::Leaf(leaf) => leaf_word_count(*leaf),
        Item::Let(_, call) => leaf_word_count(*call) + 3,
        Item::Block(kind, inside) => kind_word_count(*kind) + items_word_count(inside) + 2,
    }
}
