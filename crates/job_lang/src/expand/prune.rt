//! Removes the items that make no leaf, so that each visit of an item in a copy makes one.
ghost use Rattle.std.specs.Prelude.{◌≡◌, not};
ghost use Rattle.job_syntax.specs.Views.{items_of, item_of};
ghost use Rattle.job_lang.specs.Code.Pruning.{is_nothing, only_full, without_empty};

use job_syntax::Item;

/// Whether the item is a leaf, or a block that has at least one copy and one item.
fn is_full(item: &Item) -> bool
    ensures { result ≡ not (is_nothing (only_full (item_of item.now))) }
{
    match item {
        Item::Leaf(_) | Item::Let(_, _) => true,
        Item::Block(kind, inside) => !inside.is_empty() && kind.copies() > 0,
    }
}

/// Removes the blocks that have no copies, or no items.
fn keep_full(items: &mut Vec<Item>)
    ensures { items_of items.new.items ≡ only_full (items_of items.old.items) }
{
    items.retain(|item| is_full(item));
}

/// Removes the items that make no leaf, at every level.
#[cycle(pruning)]
pub(crate) fn take_out_empty(items: &mut Vec<Item>)
    ensures { items_of items.new.items ≡ without_empty (items_of items.old.items) }
{
    for item in items.iter_mut() {
        take_out_inside(item);
    }
    keep_full(items);
}

/// Removes the items inside this one that make no leaf, at every level.
#[cycle(pruning)]
fn take_out_inside(item: &mut Item)
    ensures { only_full (item_of item.new) ≡ without_empty (item_of item.old) }
{
    if let Item::Block(_, inside) = item {
        take_out_empty(inside);
    }
}
