//! Leaves: ascending vectors of keys at the bottom of a tree.
ghost use Rattle.std.specs.Prelude.{◌≡◌, ◌<◌, ◌≤◌, ◌++◌, ◌∷◌, [], take, drop, length, IfOk, OnOk, OnErr, false};
ghost use Rattle.key_sets.specs.Keys.{StrictlyAscends, has, with_key};
ghost use Rattle.tree_nodes.specs.Nodes.{room};
ghost use Rattle.key_sets.specs.Splits.{IsSplit};

use std::alloc::{AllocError, Global};

/// The most keys of a leaf.
pub const ROOM: usize = 256;

const HALF: usize = ROOM / 2;

/// The number of keys in the leaf below `key`, by binary search.
#[inline]
pub fn place(leaf: &[u32], key: u32) -> usize
    requires ascends { StrictlyAscends leaf.now }
    ensures within { result ≤ length leaf.now }
    ensures split { IsSplit key leaf.now (take result leaf.now) (drop result leaf.now) }
{
    let mut low = 0;
    let mut high = leaf.len();
    while low < high {
        let middle = low + (high - low) / 2;
        if leaf[middle] < key {
            low = middle + 1;
        } else {
            high = middle;
        }
    }
    low
}

/// Whether the leaf has `key`, where `at` is the number of its keys below `key`.
#[inline]
pub(crate) fn is_at(leaf: &[u32], at: usize, key: u32) -> bool
    requires ascends { StrictlyAscends leaf.now }
    requires split { IsSplit key leaf.now (take at leaf.now) (drop at leaf.now) }
    ensures { result ≡ has key leaf.now }
{
    at < leaf.len() && leaf[at] == key
}

/// An empty leaf with memory for `ROOM + 1` keys: a full leaf takes one key more before it is split.
#[inline]
pub(crate) fn empty_leaf(alloc: Global) -> Result<Box<Vec<u32>>, AllocError>
    ensures empty { IfOk result (λ b. b.value.items ≡ []) }
    ensures memory { IfOk result (λ b. room < b.value.cap) }
{
    let keys = Vec::with_capacity(alloc, ROOM + 1)?;
    let leaf = Box::new(alloc, keys)?;
    Ok(leaf)
}

/// A leaf with one key.
pub(crate) fn leaf_of(alloc: Global, key: u32) -> Result<Box<Vec<u32>>, AllocError>
    ensures { IfOk result (λ b. b.value.items ≡ key ∷ []) }
{
    let mut leaf = empty_leaf(alloc)?;
    leaf.push(key)?;
    Ok(leaf)
}

/// Inserts an absent key into a full leaf, and splits it: the leaf keeps the lower half, and the middle key and a new
/// leaf of the keys after it are returned. On `Err`, the leaf is unchanged.
pub(crate) fn insert_in_halves(
    alloc: Global,
    leaf: &mut Vec<u32>,
    at: usize,
    key: u32,
) -> Result<(u32, Box<Vec<u32>>), AllocError>
    requires ascends { StrictlyAscends leaf.old.items }
    requires within { at ≤ length leaf.old.items }
    requires split { IsSplit key leaf.old.items (take at leaf.old.items) (drop at leaf.old.items) }
    requires absent { has key leaf.old.items ≡ false }
    requires full { length leaf.old.items ≡ room }
    ensures keys { IfOk result (λ p. leaf.new.items ++ p.0 ∷ p.1.value.items ≡ with_key key leaf.old.items) }
    ensures low_fits { OnOk result (length leaf.new.items ≤ room) }
    ensures high_fits { IfOk result (λ p. length p.1.value.items ≤ room) }
    ensures err { OnErr result (leaf.new.items ≡ leaf.old.items) }
{
    let mut after = empty_leaf(alloc)?;
    leaf.insert(at, key)?;
    after.extend_from_slice(&leaf[HALF + 1..])?;
    let middle = leaf[HALF];
    leaf.truncate(HALF);
    Ok((middle, after))
}

/// Moves the leaf's keys that are not below `key` into `empty`, and returns that leaf.
pub fn cut_leaf(
    leaf: &mut Vec<u32>,
    key: u32,
    empty: Box<Vec<u32>>,
) -> Result<Box<Vec<u32>>, AllocError>
    requires ascends { StrictlyAscends leaf.old.items }
    requires empty { empty.value.items ≡ [] }
    ensures split { IfOk result (λ b. IsSplit key leaf.old.items leaf.new.items b.value.items) }
{
    let at = place(leaf, key);
    let mut after = empty;
    after.extend_from_slice(&leaf[at..])?;
    leaf.truncate(at);
    Ok(after)
}
