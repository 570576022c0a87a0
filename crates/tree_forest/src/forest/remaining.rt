//! What is left of a forest while its keys are taken off, the least ones first.
ghost use Rattle.std.specs.Prelude.{◌≡◌, ◌<◌, ◌≤◌, List, [], ◌∷◌, ◌++◌, slice_get, None, IfOk, IfSome, OnOk, OnErr};
ghost use Rattle.tree23.specs.declared.trees.KeyedTree.{KeyedTree as KeyedTreeOf};
ghost use Rattle.key_sets.specs.Keys.{StrictlyAscends};
ghost use Rattle.tree_nodes.specs.Nodes.{keys, IsRooted};
ghost use Rattle.tree23.specs.SideBySide.{in_order, in_reverse, AreTrees};
ghost use Rattle.tree23.specs.Code.Cuts.{whole_keys, IsOpenCut};
ghost use Rattle.tree_forest.specs.Code.Merges.{IsTakenOff};
ghost use Rattle.key_sets.specs.Splits.{IsSplit};
ghost use Rattle.tree_forest.specs.Forests.{IsKeySet};

use crate::forest::Forest;
use crate::pool::ForestPool;
use std::alloc::{AllocError, Global};
use std::marker::Model;
use std::mem;
use tree_nodes::node::Rooted;
use tree_nodes::search::first_in;
use tree23::trees::cut::{Cut, cut_at};
use tree23::trees::{KeyedTree, Trees};

/// A set of 32-bit numbers from which forests are taken off. Its model is the strictly ascending list of the keys on
/// the high side of `sides`. The low side is used only while a forest is taken off.
#[derive(Drop)]
pub struct Remaining {
    sides: Cut,
    alloc: Global,
}

impl Model for Remaining {
    ghost use Rattle.std.specs.Prelude.{ℕ, List};

    ghost Value = { List ℕ };

    ghost use Rattle.tree23.specs.SideBySide.{in_reverse, AreTrees};
    ghost use Rattle.tree_forest.specs.Forests.{IsKeySet};

    ghost view = { λ r. in_reverse r.sides.high };

    ghost invariant = { λ r. AreTrees r.sides.high × IsKeySet (in_reverse r.sides.high) };
}

impl Remaining {
    /// Starts with the keys of a forest.
    ///
    /// Memory: none.
    pub fn new(forest: Forest) -> Remaining
        ensures { result ≡ forest.keys }
    {
        let alloc = forest.alloc;
        let Trees { front, mut entries } = forest.trees;
        entries.reverse();
        Remaining {
            sides: Cut {
                low: Trees::empty(alloc),
                before: None,
                high: Trees { front, entries },
            },
            alloc,
        }
    }

    /// The least key, if there is one.
    pub fn least(&self) -> Option<u32>
        ensures { result ≡ slice_get self.now 0 }
    {
        match first_in(&self.sides.high.front.tree) {
            Some(key) => Some(key),
            None => match self.sides.high.entries.last() {
                Some(entry) => Some(entry.key),
                None => None,
            },
        }
    }

    /// Takes the keys below `key` off, as a forest. Subtrees beside the path to `key` move whole. On `Err`, all keys
    /// are lost.
    pub fn split_off_below(&mut self, key: u32, pool: &mut ForestPool) -> Result<Forest, AllocError>
        ensures split { IfOk result (λ forest. IsSplit key self.old forest.keys self.new) }
        ensures err { OnErr result (self.new ≡ []) }
    {
        let alloc = self.alloc;
        let Ok(low) = take_below(alloc, &mut self.sides, key, pool) else {
            self.sides.high = Trees::empty(alloc);
            return Err(AllocError);
        };
        Ok(Forest::of(low, alloc))
    }

    /// The keys that are left, as a forest.
    ///
    /// Memory: none.
    pub fn into_forest(self) -> Forest
        ensures { result.keys ≡ self }
    {
        let alloc = self.alloc;
        let Trees { front, mut entries } = self.sides.high;
        entries.reverse();
        Forest::of(Trees { front, entries }, alloc)
    }
}

/// Takes the keys below `key` off the high side.
#[inline]
fn take_below(
    alloc: Global,
    sides: &mut Cut,
    key: u32,
    pool: &mut ForestPool,
) -> Result<Trees, AllocError>
    requires trees { AreTrees sides.old.high }
    requires set { IsKeySet (in_reverse sides.old.high) }
    ensures low_trees { IfOk result (λ low. AreTrees low) }
    ensures high_trees { OnOk result (AreTrees sides.new.high) }
    ensures split { IfOk result (λ low. IsSplit key (in_reverse sides.old.high) (in_order low)
        (in_reverse sides.new.high)) }
{
    let rooted = pass_below(sides, key, pool)?;
    cut_at(rooted, key, sides, &mut pool.trees)?;
    Ok(mem::replace(&mut sides.low, Trees::empty(alloc)))
}

/// Moves the trees of the high side that lie below `key` to a new low side, up to the tree in which the cut lies. That
/// tree is taken out and returned.
#[inline]
fn pass_below(sides: &mut Cut, key: u32, pool: &mut ForestPool) -> Result<Rooted, AllocError>
    requires trees { AreTrees sides.old.high }
    requires set { StrictlyAscends (in_reverse sides.old.high) }
    ensures sides { OnOk result (IsOpenCut key sides.new) }
    ensures keys { IfOk result (λ rooted. whole_keys (keys rooted.tree) sides.new
        ≡ in_reverse sides.old.high) }
    ensures rooted { IfOk result (λ rooted. IsRooted rooted) }
{
    sides.low = Trees {
        front: Rooted::empty(),
        entries: pool.take_entries()?,
    };
    sides.before = None;
    let mut rooted = mem::replace(&mut sides.high.front, Rooted::empty());
    while let Some(entry) = pop_below(&mut sides.high.entries, key) {
        sides.put_low(rooted.tree, rooted.height, entry.key)?;
        rooted = entry.rooted;
    }
    Ok(rooted)
}

/// Takes the last entry off, if its key is below `key`.
fn pop_below(entries: &mut Vec<KeyedTree>, key: u32) -> Option<KeyedTree>
    ensures taken { IsTakenOff entries.old.items entries.new.items result }
    ensures below { IfSome result (λ e. e.key < key) }
    ensures stays { (e : KeyedTreeOf) (others : List KeyedTreeOf)
        → result ≡ None → entries.old.items ≡ others ++ e ∷ [] → key ≤ e.key }
{
    match entries.last() {
        Some(last) if last.key < key => entries.pop(),
        _ => None,
    }
}
