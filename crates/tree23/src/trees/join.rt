//! Joining the trees of a row into few trees, or one.
ghost use Rattle.std.specs.Prelude.{◌≡◌, ◌+◌, ◌<◌, ◌≤◌, ◌^◌, length, IfOk, OnOk};
ghost use Rattle.tree_nodes.specs.Nodes.{keys, IsRooted};
ghost use Rattle.tree23.specs.SideBySide.{in_order, in_reverse, AreTrees};

use crate::tree::join::put_after;
use crate::trees::Trees;
use std::alloc::AllocError;
use tree_nodes::Pool;
use tree_nodes::node::Rooted;

/// Joins the last two trees.
fn join_last(trees: &mut Trees, pool: &mut Pool) -> Result<(), AllocError>
    requires some { 0 < length trees.old.entries.items }
    requires trees { AreTrees trees.old }
    requires fits { length (in_order trees.old) < 2 ^ 62 }
    ensures trees { OnOk result (AreTrees trees.new) }
    ensures keys { OnOk result (in_order trees.new ≡ in_order trees.old) }
    ensures count { OnOk result (length trees.new.entries.items + 1 ≡ length trees.old.entries.items) }
{
    if let Some(last) = trees.entries.pop() {
        match trees.entries.pop() {
            None => put_after(&mut trees.front, last.key, last.rooted, pool)?,
            Some(mut low) => {
                put_after(&mut low.rooted, last.key, last.rooted, pool)?;
                trees.entries.push(low)?;
            }
        }
    }
    Ok(())
}

/// Joins trees from the end until at most `most` are left beside the first.
pub fn join_many(trees: &mut Trees, most: usize, pool: &mut Pool) -> Result<(), AllocError>
    requires trees { AreTrees trees.old }
    requires fits { length (in_order trees.old) < 2 ^ 62 }
    ensures trees { OnOk result (AreTrees trees.new) }
    ensures keys { OnOk result (in_order trees.new ≡ in_order trees.old) }
    ensures count { OnOk result (length trees.new.entries.items ≤ most) }
{
    while trees.entries.len() > most {
        join_last(trees, pool)?;
    }
    Ok(())
}

/// Joins a row whose entries are in reverse order into one tree.
pub fn join_reversed(mut trees: Trees, pool: &mut Pool) -> Result<Rooted, AllocError>
    requires trees { AreTrees trees }
    requires fits { length (in_reverse trees) < 2 ^ 62 }
    ensures rooted { IfOk result (λ rooted. IsRooted rooted) }
    ensures keys { IfOk result (λ rooted. keys rooted.tree ≡ in_reverse trees) }
{
    while let Some(entry) = trees.entries.pop() {
        put_after(&mut trees.front, entry.key, entry.rooted, pool)?;
    }
    Ok(trees.front)
}
