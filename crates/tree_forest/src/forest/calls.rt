//! Search, insertion and removal in a row of trees: each call goes to the one tree whose range has the key.
ghost use Rattle.std.specs.Prelude.{◌≡◌, ◌<◌, ◌≤◌, ◌^◌, drop, length, IfOk, OnErr};
ghost use Rattle.key_sets.specs.Keys.{StrictlyAscends, has, without_key, least_above};
ghost use Rattle.tree23.specs.SideBySide.{in_order, AreTrees};
ghost use Rattle.tree_forest.specs.Forests.{tree_count};
ghost use Rattle.tree_forest.specs.Code.Places.{or_first_key, IsPlace};
ghost use Rattle.tree_nodes.specs.Code.Insertions.{IsInserted};

use std::alloc::{AllocError, Global};
use tree_nodes::insert::insert_at_root;
use tree_nodes::remove::{pop_first, remove_in, shrink_root};
use tree_nodes::search::{find_in, next_in};
use tree23::trees::Trees;

/// The number of entries before the first one whose key is above `key`. The scan is linear, since a compacted forest
/// has at most 65 trees.
#[inline]
fn place(trees: &Trees, key: u32) -> usize
    ensures { IsPlace key trees.now.entries.items result }
{
    let mut at = 0;
    while at < trees.entries.len() && trees.entries[at].key <= key {
        at += 1;
    }
    at
}

/// Whether the key is in a tree or between two trees.
pub(crate) fn find_in_trees(trees: &Trees, key: u32) -> bool
    requires trees { AreTrees trees.now }
    requires ascends { StrictlyAscends (in_order trees.now) }
    ensures { result ≡ has key (in_order trees.now) }
{
    let at = place(trees, key);
    if at == 0 {
        return find_in(&trees.front.tree, key);
    }
    let entry = &trees.entries[at - 1];
    entry.key == key || find_in(&entry.rooted.tree, key)
}

/// `answer`, if there is one, or else the key of the entry at `at`, if there is one.
#[inline]
fn or_key_at(answer: Option<u32>, trees: &Trees, at: usize) -> Option<u32>
    ensures { result ≡ or_first_key answer (drop at trees.now.entries.items) }
{
    match answer {
        Some(key) => Some(key),
        None if at < trees.entries.len() => Some(trees.entries[at].key),
        None => None,
    }
}

/// The least key greater than `key`, if there is one.
pub(crate) fn next_in_trees(trees: &Trees, key: u32) -> Option<u32>
    requires trees { AreTrees trees.now }
    requires ascends { StrictlyAscends (in_order trees.now) }
    ensures { result ≡ least_above key (in_order trees.now) }
{
    let at = place(trees, key);
    if at == 0 {
        return or_key_at(next_in(&trees.front.tree, key), trees, at);
    }
    let entry = &trees.entries[at - 1];
    or_key_at(next_in(&entry.rooted.tree, key), trees, at)
}

/// Inserts the key, and returns whether it is new.
pub(crate) fn insert_in_trees(
    alloc: Global,
    trees: &mut Trees,
    key: u32,
) -> Result<bool, AllocError>
    requires trees { AreTrees trees.old }
    requires ascends { StrictlyAscends (in_order trees.old) }
    requires fits { length (in_order trees.old) < 2 ^ 62 }
    ensures trees { AreTrees trees.new }
    ensures ok { IfOk result (λ added. IsInserted key (in_order trees.old) (in_order trees.new) added) }
    ensures err { OnErr result (in_order trees.new ≡ in_order trees.old) }
    ensures count { tree_count trees.new ≡ tree_count trees.old }
{
    let at = place(trees, key);
    if at == 0 {
        return insert_at_root(alloc, &mut trees.front, key);
    }
    let entry = &mut trees.entries[at - 1];
    if entry.key == key {
        return Ok(false);
    }
    insert_at_root(alloc, &mut entry.rooted, key)
}

/// Removes the key, and returns whether it was present. The key of an entry is replaced by the first key of its tree;
/// if the tree has none, the entry is dropped.
pub(crate) fn remove_in_trees(trees: &mut Trees, key: u32) -> bool
    requires trees { AreTrees trees.old }
    requires ascends { StrictlyAscends (in_order trees.old) }
    ensures trees { AreTrees trees.new }
    ensures found { result ≡ has key (in_order trees.old) }
    ensures keys { in_order trees.new ≡ without_key key (in_order trees.old) }
    ensures count { tree_count trees.new ≤ tree_count trees.old }
{
    let at = place(trees, key);
    if at == 0 {
        let found = remove_in(&mut trees.front.tree, key);
        shrink_root(&mut trees.front);
        return found;
    }
    let entry = &mut trees.entries[at - 1];
    if entry.key != key {
        let found = remove_in(&mut entry.rooted.tree, key);
        shrink_root(&mut entry.rooted);
        return found;
    }
    match pop_first(&mut entry.rooted.tree) {
        Some(next) => {
            entry.key = next;
            shrink_root(&mut entry.rooted);
        }
        None => {
            trees.entries.remove(at - 1);
        }
    }
    true
}
