//! The number of leaves that items make, capped at one more than a job may have.
ghost use Rattle.std.specs.Prelude.{◌≡◌, ◌+◌, min};
ghost use Rattle.limits.specs.declared.TheConstants.{MOST_LEAVES};
ghost use Rattle.job_lang.specs.Counts.{count};
ghost use Rattle.job_syntax.specs.Views.{items_of, item_of};

use job_syntax::Item;

/// The cap of counts, one more than the leaves that a job may have. It prevents overflow.
const CUT: u64 = limits::MOST_LEAVES as u64 + 1;

/// The number of leaves that the items make, capped at one more than a job may have.
#[cycle(counting_leaves)]
pub(crate) fn count_items(items: &[Item]) -> u64
    ensures { result ≡ min (MOST_LEAVES + 1) (count (items_of items.now)) }
{
    let mut leaves = 0;
    for item in items {
        leaves = CUT.min(leaves + count_item(item));
    }
    leaves
}

/// The number of leaves that the item makes, capped at one more than a job may have.
#[cycle(counting_leaves)]
#[tactic(auto, using(crate::proofs::LimitLemmas::Cuts::block_cut, crate::proofs::LimitLemmas::Cuts::count_leaf, crate::proofs::LimitLemmas::Cuts::count_let))]
pub(crate) fn count_item(item: &Item) -> u64
    ensures { result ≡ min (MOST_LEAVES + 1) (count (item_of item.now)) }
{
    match item {
        Item::Leaf(_) | Item::Let(_, _) => 1,
        Item::Block(kind, items) => CUT.min(u64::from(kind.copies()) * count_items(items)),
    }
}
