//! Expansion: the job of items, with the shapes and the acts of all copies.
ghost use Rattle.std.specs.Prelude.{◌≡◌, ℕ, ◌+◌, ◌*◌, ◌<◌, ◌≤◌, ◌++◌, false, length, map, IfOk, OnOk};
ghost use Rattle.limits.specs.declared.TheConstants.{MOST_LEAVES};
ghost use Rattle.sp_order.specs.Precedence.{tree_of, seq};
ghost use Rattle.job_lang.specs.Counts.{count};
ghost use Rattle.job_syntax.specs.Grammar.{block_then, nothing, AreItems};
ghost use Rattle.job_lang.specs.Meaning.{each_copy, join_in, join_list, objects_in, shapes_in, job_of};
ghost use Rattle.job_lang.specs.Code.Numbered.{AreSpelled};
ghost use Rattle.job_lang.specs.Code.Scoped.{Adds, AddsCopies, AreKept};
ghost use Rattle.job_lang.specs.Orders.{join_by};
ghost use Rattle.job_lang.specs.Code.Orders.{shapes_inside};
ghost use Rattle.job_lang.specs.Code.Ranges.{Fits};
ghost use Rattle.job_syntax.specs.Views.{block_kind_of, item_of, items_of};

mod leaves;
pub(crate) mod objects;
mod prune;

use crate::expand::leaves::Leaves;
use crate::expand::prune::take_out_empty;
use crate::join::{Order, join, join_from};
use job_syntax::{BlockKind, Item};
use sp_order::{Job, Shape};
use std::alloc::{AllocError, Global};

/// How a block of this kind joins its shapes.
fn order_in(kind: BlockKind) -> Order
    ensures { join_by result ≡ join_in (block_kind_of kind) }
{
    match kind {
        BlockKind::Seq | BlockKind::For(_) => Order::Series,
        BlockKind::Par | BlockKind::Pfor(_) => Order::Parallel,
    }
}

/// Appends the shapes of the items in copy `copy`. Their leaves are added to `leaves`.
#[cycle(expanding)]
#[tactic(auto, using(crate::proofs::ExpandLemmas::Copies::fits_item, crate::proofs::Weights::weight_item))]
fn shapes_in(
    alloc: Global,
    copy: u32,
    items: &[Item],
    leaves: &mut Leaves,
    shapes: &mut Vec<Shape>,
) -> Result<(), AllocError>
    requires fits { Fits copy (items_of items.now) }
    requires few { length leaves.old.acts.items + count (items_of items.now) ≤ MOST_LEAVES }
    requires kept { AreKept leaves.old }
    ensures shapes { OnOk result
        (map tree_of shapes.new.items ≡ map tree_of shapes.old.items ++ shapes_in copy (items_of items.now)) }
    ensures leaves { OnOk result (Adds copy (items_of items.now) leaves.old leaves.new) }
{
    for item in items {
        shape_in(alloc, copy, item, leaves, shapes)?;
    }
    Ok(())
}

/// Appends the shape of the item in copy `copy`, if it has leaves there. Its leaves are added to `leaves`.
#[cycle(expanding)]
#[tactic(auto, using(crate::proofs::ExpandLemmas::Adding::adds_leaf, crate::proofs::ExpandLemmas::Adding::adds_let, crate::proofs::ExpandLemmas::Adding::adds_block, crate::proofs::ExpandLemmas::Copies::block_fits, crate::proofs::Weights::weight_block))]
fn shape_in(
    alloc: Global,
    copy: u32,
    item: &Item,
    leaves: &mut Leaves,
    shapes: &mut Vec<Shape>,
) -> Result<(), AllocError>
    requires fits { Fits copy (item_of item.now) }
    requires few { length leaves.old.acts.items + count (item_of item.now) ≤ MOST_LEAVES }
    requires kept { AreKept leaves.old }
    ensures shapes { OnOk result
        (map tree_of shapes.new.items ≡ map tree_of shapes.old.items ++ shapes_in copy (item_of item.now)) }
    ensures leaves { OnOk result (Adds copy (item_of item.now) leaves.old leaves.new) }
{
    match item {
        Item::Leaf(leaf) => {
            leaves.add(copy, *leaf)?;
            shapes.push(Shape::Leaf)?;
            Ok(())
        }
        Item::Let(name, call) => {
            leaves.add_let(copy, *name, *call)?;
            shapes.push(Shape::Leaf)?;
            Ok(())
        }
        Item::Block(kind, inside) => {
            let before = shapes.len();
            block_shapes(alloc, copy, *kind, inside, leaves, shapes)?;
            join_from(alloc, order_in(*kind), shapes, before)
        }
    }
}

/// Appends the shapes that a block joins in copy `copy`. Their leaves are added to `leaves`.
#[cycle(expanding)]
fn block_shapes(
    alloc: Global,
    copy: u32,
    kind: BlockKind,
    inside: &[Item],
    leaves: &mut Leaves,
    shapes: &mut Vec<Shape>,
) -> Result<(), AllocError>
    requires fits { Fits copy (block_then (block_kind_of kind) (items_of inside.now) nothing) }
    requires few { length leaves.old.acts.items + count (block_then (block_kind_of kind) (items_of inside.now) nothing)
        ≤ MOST_LEAVES }
    requires kept { AreKept leaves.old }
    ensures shapes { OnOk result
        (map tree_of shapes.new.items
        ≡ map tree_of shapes.old.items ++ shapes_inside copy (block_kind_of kind) (items_of inside.now)) }
    ensures leaves { OnOk result
        (Adds copy (block_then (block_kind_of kind) (items_of inside.now) nothing) leaves.old leaves.new) }
{
    match kind {
        BlockKind::Seq | BlockKind::Par => {
            leaves.open(kind)?;
            shapes_in(alloc, copy, inside, leaves, shapes)?;
            leaves.close();
            Ok(())
        }
        BlockKind::For(copies) => shapes_of_copies(alloc, copies, inside, leaves, shapes),
        BlockKind::Pfor(copies) => shapes_of_copies(alloc, copies, inside, leaves, shapes),
    }
}

/// Appends the shapes of `copies` copies, each of them the items in series; copies without leaves give none. Their
/// leaves are added to `leaves`.
#[cycle(expanding)]
fn shapes_of_copies(
    alloc: Global,
    copies: u32,
    inside: &[Item],
    leaves: &mut Leaves,
    shapes: &mut Vec<Shape>,
) -> Result<(), AllocError>
    requires fits { (k : ℕ) → k < copies → Fits k (items_of inside.now) }
    requires few { length leaves.old.acts.items + copies * count (items_of inside.now) ≤ MOST_LEAVES }
    requires kept { AreKept leaves.old }
    ensures shapes { OnOk result
        (map tree_of shapes.new.items
        ≡ map tree_of shapes.old.items ++ each_copy copies (λ k. join_list seq (shapes_in k (items_of inside.now)))) }
    ensures leaves { OnOk result (AddsCopies copies (items_of inside.now) leaves.old leaves.new) }
{
    for copy in 0..copies {
        let before = shapes.len();
        leaves.open(BlockKind::For(copies))?;
        shapes_in(alloc, copy, inside, leaves, shapes)?;
        leaves.close();
        join_from(alloc, Order::Series, shapes, before)?;
    }
    Ok(())
}

/// The job of items outside every loop. Items that make no leaf are removed first, so that each visit of an item makes
/// a leaf: a row of empty blocks inside a loop costs no time in the copies. All shapes stand on one stack, where each
/// block and each copy joins its own, so that none of them needs a vector.
#[tactic(auto, using(crate::proofs::ExpandLemmas::Leaves::job_leaves, crate::proofs::ExpandLemmas::Leaves::acts_count, crate::proofs::ExpandLemmas::Vanishing::same_shapes, crate::proofs::ExpandLemmas::Vanishing::same_acts, crate::proofs::ExpandLemmas::Vanishing::kept_fits))]
pub(crate) fn expand(alloc: Global, mut items: Vec<Item>) -> Result<Job, AllocError>
    requires few { count (items_of items.items) ≤ MOST_LEAVES }
    requires fits { Fits 0 (items_of items.items) }
    requires derived { AreItems false (items_of items.items) }
    requires spelled { AreSpelled (objects_in (items_of items.items)) }
    ensures { IfOk result (λ job. job ≡ job_of (items_of items.items)) }
{
    take_out_empty(&mut items);
    let mut leaves = Leaves::new(alloc);
    let mut shapes = Vec::new(alloc);
    shapes_in(alloc, 0, &items, &mut leaves, &mut shapes)?;
    let shape = join(alloc, Order::Series, shapes)?;
    let Leaves {
        acts,
        sources,
        objects,
        ..
    } = leaves;
    objects.called_in(alloc, Job::with_sources(shape, acts, sources))
}
