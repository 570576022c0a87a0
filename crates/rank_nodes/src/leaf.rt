//! Leaves: vectors of entries with ascending keys, at the bottom of a tree.
ghost use Rattle.std.specs.Prelude.{◌≡◌, ◌+◌, ◌<◌, ◌≤◌, ◌++◌, ◌∷◌, [], take, drop, length, IfOk, OnOk, OnErr};
ghost use Rattle.std.specs.List.{insert};
ghost use Rattle.rank_nodes.specs.Maps.{Ascends, value_at};
ghost use Rattle.rank_nodes.specs.Nodes.{room};
ghost use Rattle.rank_nodes.specs.Code.Splits.{IsSplit};

use crate::entry::Entry;
use std::alloc::{AllocError, Global};

/// The most entries of a leaf.
pub const ROOM: usize = 64;

const HALF: usize = ROOM / 2;

/// The number of keys in the leaf below `key`, by binary search.
#[inline]
pub fn place(leaf: &[Entry], key: u32) -> usize
    requires ascends { Ascends leaf.now }
    ensures within { result ≤ length leaf.now }
    ensures split { IsSplit key leaf.now (take result leaf.now) (drop result leaf.now) }
{
    let mut low = 0;
    let mut high = leaf.len();
    while low < high {
        let middle = low + (high - low) / 2;
        if leaf[middle].key < key {
            low = middle + 1;
        } else {
            high = middle;
        }
    }
    low
}

/// The value of `key` in the leaf, if present, where `at` is the number of keys below `key`.
#[inline]
pub fn value_in_leaf(leaf: &[Entry], at: usize, key: u32) -> Option<u32>
    requires ascends { Ascends leaf.now }
    requires split { IsSplit key leaf.now (take at leaf.now) (drop at leaf.now) }
    ensures { result ≡ value_at key leaf.now }
{
    if at < leaf.len() && leaf[at].key == key {
        Some(leaf[at].val)
    } else {
        None
    }
}

/// An empty leaf with memory for `ROOM + 1` entries: a full leaf takes one entry more before it is split.
#[inline]
pub(crate) fn empty_leaf(alloc: Global) -> Result<Box<Vec<Entry>>, AllocError>
    ensures empty { IfOk result (λ b. b.value.items ≡ []) }
    ensures memory { IfOk result (λ b. room < b.value.cap) }
{
    let entries = Vec::with_capacity(alloc, ROOM + 1)?;
    let leaf = Box::new(alloc, entries)?;
    Ok(leaf)
}

/// A leaf with one entry.
pub(crate) fn leaf_of(alloc: Global, entry: Entry) -> Result<Box<Vec<Entry>>, AllocError>
    ensures { IfOk result (λ b. b.value.items ≡ entry ∷ []) }
{
    let mut leaf = empty_leaf(alloc)?;
    leaf.push(entry)?;
    Ok(leaf)
}

/// Inserts an entry into a full leaf at index `at`, and splits it: the leaf keeps the lower half, and the middle entry
/// and a new leaf of those after it are returned. On `Err`, the leaf is unchanged.
pub(crate) fn insert_in_halves(
    alloc: Global,
    leaf: &mut Vec<Entry>,
    at: usize,
    entry: Entry,
) -> Result<(Entry, Box<Vec<Entry>>), AllocError>
    requires within { at ≤ length leaf.old.items }
    requires full { length leaf.old.items ≡ room }
    ensures entries { IfOk result (λ p. leaf.new.items ++ p.0 ∷ p.1.value.items ≡ insert leaf.old.items at entry) }
    ensures low_fits { OnOk result (length leaf.new.items ≤ room) }
    ensures high_fits { IfOk result (λ p. length p.1.value.items ≤ room) }
    ensures count { IfOk result (λ p. length leaf.new.items + 1 + length p.1.value.items ≡ room + 1) }
    ensures err { OnErr result (leaf.new.items ≡ leaf.old.items) }
{
    let mut after = empty_leaf(alloc)?;
    leaf.insert(at, entry)?;
    after.extend_from_slice(&leaf[HALF + 1..])?;
    let middle = leaf[HALF];
    leaf.truncate(HALF);
    Ok((middle, after))
}

/// Moves the leaf's entries whose keys are not below `key` into a new leaf, which is returned.
pub fn cut_leaf(
    alloc: Global,
    leaf: &mut Vec<Entry>,
    key: u32,
) -> Result<Box<Vec<Entry>>, AllocError>
    requires ascends { Ascends leaf.old.items }
    ensures split { IfOk result (λ b. IsSplit key leaf.old.items leaf.new.items b.value.items) }
{
    let at = place(leaf, key);
    let mut after = empty_leaf(alloc)?;
    after.extend_from_slice(&leaf[at..])?;
    leaf.truncate(at);
    Ok(after)
}
