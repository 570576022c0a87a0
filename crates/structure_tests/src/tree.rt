//! The 2-3 tree, and the forest of trees.
ghost use Rattle.std.specs.Prelude.{◌<◌};

use std::alloc::{AllocError, Global};
use std::collections::BTreeSet;
use std::test::Fail;
use tree_forest::{Forest, ForestPool, Remaining};
use tree23::Tree23;

/// Whether a tree that was empty takes the keys 1 to 7, and has them.
fn is_filled(tree: &mut Tree23) -> Result<bool, AllocError> {
    for key in 1..8 {
        if !tree.insert(key)? {
            return Ok(false);
        }
    }
    let again = tree.insert(4)?;
    Ok(!again && tree.find(4) && tree.next(4) == Some(5) && tree.next(7).is_none())
}

/// Whether a tree has just the keys of this range, and no depth that so few need.
fn has_just(tree: &Tree23, first: u32, last: u32) -> bool
    requires { 0 < first }
{
    for key in first..=last {
        if tree.next(key - 1) != Some(key) {
            return false;
        }
    }
    tree.next(0) == Some(first) && tree.next(last).is_none() && tree.depth() <= 3
}

/// Whether a tree gives up the key 4, once, and has no key 8.
fn is_without_four(tree: &mut Tree23) -> bool {
    !tree.remove(8) && tree.remove(4) && !tree.find(4) && tree.len() == 6
}

/// Whether a tree of the keys 1 to 7 is cut at 5, and joined again.
fn is_rejoined(alloc: Global) -> Result<bool, AllocError> {
    let mut tree = Tree23::new(alloc);
    let filled = is_filled(&mut tree)? && tree.len() == 7;
    let (low, high) = tree.split_below(5)?;
    let apart = has_just(&low, 1, 4) && has_just(&high, 5, 7);
    let mut tree = Tree23::concat(low, high)?;
    Ok(filled && apart && has_just(&tree, 1, 7) && is_without_four(&mut tree))
}

#[test]
fn a_tree_is_cut_and_joined(rt: HostRuntime) -> Result<(), Fail> {
    assert!(rt; is_rejoined(rt.alloc())?);
    Ok(())
}

/// Inserts the keys 0, 5, .. 99,995. The first that was there, if there is one.
fn insert_all(tree: &mut Tree23) -> Result<Option<u32>, AllocError> {
    for key in 0..20000 {
        if !tree.insert(key * 5)? {
            return Ok(Some(key));
        }
    }
    Ok(None)
}

/// Removes these keys. The first that was not there, if there is one.
fn remove_all(tree: &mut Tree23) -> Option<u32> {
    for key in 0..20000 {
        if !tree.remove(key * 5) {
            return Some(key);
        }
    }
    None
}

/// Whether a tree with these keys has all of them, and is from 4 to 14 deep.
fn is_not_deep(tree: &Tree23) -> bool {
    let ends = tree.next(99990) == Some(99995) && tree.next(99995).is_none();
    ends && tree.len() == 20000 && 4 <= tree.depth() && tree.depth() <= 14
}

/// Whether a tree to which a test gives these keys, and from which it takes them, has them in between.
fn is_filled_and_emptied(alloc: Global) -> Result<bool, AllocError> {
    let mut tree = Tree23::new(alloc);
    let there = insert_all(&mut tree)?;
    let full = there.is_none() && is_not_deep(&tree);
    let gone = remove_all(&mut tree);
    Ok(full && gone.is_none() && tree.len() == 0 && tree.depth() == 0)
}

#[test]
fn a_tree_of_many_keys_is_not_deep(rt: HostRuntime) -> Result<(), Fail> {
    assert!(rt; is_filled_and_emptied(rt.alloc())?);
    Ok(())
}

/// The next key of a sequence that looks random: below 5,000.
fn next_key(state: &mut u32) -> u32
    ensures { result < 5000 }
{
    *state = state.wrapping_mul(1_664_525).wrapping_add(1_013_904_223);
    (*state >> 12) % 5000
}

/// Whether both answer alike to 3,000 keys that are put in.
fn fill(tree: &mut Tree23, set: &mut BTreeSet<u32>, state: &mut u32) -> Result<bool, AllocError> {
    for _ in 0..3000 {
        let key = next_key(state);
        if tree.insert(key)? != set.insert(key)? {
            return Ok(false);
        }
    }
    Ok(true)
}

/// The tree after a cut at a key, a join, and the removal of the key, and whether the set answers alike.
fn cut_alike(
    tree: Tree23,
    set: &mut BTreeSet<u32>,
    key: u32,
) -> Result<(Tree23, bool), AllocError> {
    let (low, high) = tree.split_below(key)?;
    let sides = (low.next(key), low.find(key), high.find(key));
    let apart = sides == (None, false, set.contains(&key));
    let mut tree = Tree23::concat(low, high)?;
    let alike = tree.remove(key) == set.remove(&key);
    Ok((tree, apart && alike))
}

/// Whether a tree has the keys of a set, of which none is 0.
fn is_same(tree: &Tree23, set: &BTreeSet<u32>) -> bool {
    let mut last = 0;
    for key in set {
        if tree.next(last) != Some(*key) {
            return false;
        }
        last = *key;
    }
    tree.next(last).is_none()
}

/// Whether a tree and the ordered set of std are alike, where keys that look random are put in, cut at and taken out.
fn are_alike(alloc: Global) -> Result<bool, AllocError> {
    let mut tree = Tree23::new(alloc);
    let mut set = BTreeSet::new(alloc);
    let mut state = 1;
    let mut alike = fill(&mut tree, &mut set, &mut state)?;
    for _ in 0..300 {
        let (next, same) = cut_alike(tree, &mut set, next_key(&mut state))?;
        tree = next;
        alike = alike && same;
    }
    Ok(alike && is_same(&tree, &set))
}

#[test]
fn a_tree_is_cut_inside_its_range(rt: HostRuntime) -> Result<(), Fail> {
    assert!(rt; are_alike(rt.alloc())?);
    Ok(())
}

/// Inserts the keys 0, 5, .. 9,995. The first that was there, if there is one.
fn fill_forest(forest: &mut Forest) -> Result<Option<u32>, AllocError> {
    for key in 0..2000 {
        if !forest.insert(key * 5)? {
            return Ok(Some(key));
        }
    }
    Ok(None)
}

/// Whether the forests on both sides of a cut at 4,000 have the keys next to it.
fn are_apart(low: &Forest, high: &Remaining) -> bool {
    let next = (low.next(3990), low.next(3995));
    high.least() == Some(4000) && !low.find(4000) && next == (Some(3995), None)
}

/// Whether a forest has the keys next to the cut, and gives up 4,000.
fn is_whole(forest: &mut Forest) -> bool {
    let joined = forest.find(4000) && forest.next(3995) == Some(4000);
    let removed = forest.remove(4000) && !forest.remove(4001);
    joined && removed && forest.next(3995) == Some(4005)
}

/// Whether a forest is cut at 4,000, and put together again.
fn is_put_together(alloc: Global) -> Result<bool, AllocError> {
    let mut forest = Forest::new(alloc);
    let there = fill_forest(&mut forest)?;
    let mut pool = ForestPool::new(alloc);
    let mut rest = Remaining::new(forest);
    let mut low = rest.split_off_below(4000, &mut pool)?;
    let apart = there.is_none() && are_apart(&low, &rest);
    low.append(rest.into_forest(), &mut pool)?;
    low.compact(&mut pool)?;
    Ok(apart && is_whole(&mut low))
}

#[test]
fn a_forest_is_cut_and_put_together(rt: HostRuntime) -> Result<(), Fail> {
    assert!(rt; is_put_together(rt.alloc())?);
    Ok(())
}
