//! The map with rank and select.
ghost use Rattle.std.specs.Prelude.{IfOk};
ghost use Rattle.rank_nodes.specs.Maps.{AllBelow};

use crate::numbers::next_number;
use rank_tree::RankTree;
use std::alloc::{AllocError, Global};
use std::collections::BTreeMap;
use std::test::Fail;
use test_rows::all_hold;

/// A call of a map, and its answer.
enum Step {
    Put(u32, u32, Option<u32>),
    Del(u32, Option<u32>),
    Get(u32, Option<u32>),
    Rank(u32, u64),
    Nth(u64, Option<u32>),
}

/// Whether a map answers the call so.
fn is_answered(map: &mut RankTree, step: &Step) -> Result<bool, AllocError> {
    Ok(match *step {
        Step::Put(key, val, old) => map.put(key, val)? == old,
        Step::Del(key, old) => map.del(key) == old,
        Step::Get(key, val) => map.get(key) == val,
        Step::Rank(key, below) => map.rank(key) == below,
        Step::Nth(i, key) => map.nth(i) == key,
    })
}

/// Whether it answers these calls so.
fn are_answered(map: &mut RankTree, steps: &[Step]) -> Result<bool, AllocError> {
    for step in steps {
        if !is_answered(map, step)? {
            return Ok(false);
        }
    }
    Ok(true)
}

/// Whether a map has just these keys, by their indices.
fn has_just(map: &RankTree, keys: &[u32]) -> bool {
    let mut i = 0u64;
    for key in keys {
        if map.nth(i) != Some(*key) {
            return false;
        }
        i = i.saturating_add(1);
    }
    map.len() == i
}

/// The two sides of a cut, which can be joined again.
fn cut(map: RankTree, key: u32) -> Result<(RankTree, RankTree), AllocError>
    ensures { IfOk result (λ p. AllBelow p.0 p.1) }
{
    let sides = map.split_below(key)?;
    Ok(sides)
}

/// Calls of a map of few keys, a key at which it is then cut, and the keys of both sides.
type Row = (&'static [Step], u32, &'static [u32], &'static [u32]);

/// The place of the first row in which a map that was empty answers otherwise, or has other sides, if there is one. After
/// each cut the sides are joined again.
fn first_wrong(alloc: Global, rows: &[Row]) -> Result<Option<usize>, AllocError> {
    let mut map = RankTree::new(alloc);
    for (place, row) in rows.iter().enumerate() {
        let (steps, key, below, above) = *row;
        let answered = are_answered(&mut map, steps)? && map.depth() == 0;
        let (low, high) = cut(map, key)?;
        let apart = has_just(&low, below) && has_just(&high, above);
        map = RankTree::concat(low, high)?;
        if !answered || !apart {
            return Ok(Some(place));
        }
    }
    Ok(None)
}

/// A map of four keys, which is asked for keys that are there and not there.
const FOUR: &[Row] = &[
    (&[], 20, &[], &[]),
    (
        &[
            Step::Put(30, 3, None),
            Step::Put(10, 1, None),
            Step::Put(20, 2, None),
            Step::Put(40, 4, None),
            Step::Put(20, 9, Some(2)),
            Step::Get(20, Some(9)),
            Step::Get(25, None),
            Step::Rank(20, 1),
            Step::Rank(25, 2),
            Step::Nth(1, Some(20)),
            Step::Nth(4, None),
        ],
        20,
        &[10],
        &[20, 30, 40],
    ),
    (
        &[Step::Del(20, Some(9)), Step::Del(20, None)],
        0,
        &[],
        &[10, 30, 40],
    ),
];

#[test]
fn a_map_is_cut_and_joined(rt: HostRuntime) -> Result<(), Fail> {
    all_hold(first_wrong(rt.alloc(), FOUR)?)
}

/// A map of the least key and the greatest.
const EDGES: &[Row] = &[
    (
        &[
            Step::Rank(4294967295, 0),
            Step::Nth(0, None),
            Step::Put(4294967295, 0, None),
            Step::Put(0, 4294967295, None),
            Step::Rank(0, 0),
            Step::Rank(4294967295, 1),
            Step::Nth(0, Some(0)),
            Step::Nth(1, Some(4294967295)),
            Step::Nth(2, None),
            Step::Nth(18446744073709551615, None),
            Step::Get(0, Some(4294967295)),
            Step::Get(4294967295, Some(0)),
        ],
        0,
        &[],
        &[0, 4294967295],
    ),
    (&[], 4294967295, &[0], &[4294967295]),
    (
        &[
            Step::Del(4294967295, Some(0)),
            Step::Del(0, Some(4294967295)),
        ],
        0,
        &[],
        &[],
    ),
];

#[test]
fn the_least_key_and_the_greatest(rt: HostRuntime) -> Result<(), Fail> {
    all_hold(first_wrong(rt.alloc(), EDGES)?)
}

/// Puts the keys 0, 5, .. 99,995. The first that was there, if there is one.
fn put_all(map: &mut RankTree) -> Result<Option<u32>, AllocError> {
    for key in 0..20000u32 {
        if map.put(key * 5, key)?.is_some() {
            return Ok(Some(key));
        }
    }
    Ok(None)
}

/// The first of these keys that has another rank or index, if there is one.
fn misplaced(map: &RankTree) -> Option<u32> {
    for key in 0..20000u32 {
        let i = u64::from(key);
        if map.rank(key * 5) != i || map.nth(i) != Some(key * 5) {
            return Some(key);
        }
    }
    None
}

/// Removes these keys. The first that had another value, if there is one.
fn remove_all(map: &mut RankTree) -> Option<u32> {
    for key in 0..20000u32 {
        if map.del(key * 5) != Some(key) {
            return Some(key);
        }
    }
    None
}

/// Whether a map of many keys has each at its place, gives each back, and is from 5 to 14 deep before.
fn is_not_deep(alloc: Global) -> Result<bool, AllocError> {
    let mut map = RankTree::new(alloc);
    let there = put_all(&mut map)?;
    let depth = map.depth();
    let wrong = there.or(misplaced(&map)).or(remove_all(&mut map));
    Ok(wrong.is_none() && 5 <= depth && depth <= 14 && map.len() == 0 && map.depth() == 0)
}

#[test]
fn a_map_of_many_keys_is_not_deep(rt: HostRuntime) -> Result<(), Fail> {
    assert!(rt; is_not_deep(rt.alloc())?);
    Ok(())
}

/// Whether each key of std's map, in order, has its index, its rank and its value in a tree of as many keys.
fn is_same(tree: &RankTree, map: &BTreeMap<u32, u32>) -> bool {
    let mut i = 0u64;
    for (key, val) in map {
        if tree.nth(i) != Some(*key) || tree.rank(*key) != i || tree.get(*key) != Some(*val) {
            return false;
        }
        i = i.saturating_add(1);
    }
    tree.len() == i && tree.nth(i).is_none()
}

/// Whether a call on one of 2,000 keys that look random, in `puts` of four a put and else a removal, is answered alike.
fn is_alike(
    tree: &mut RankTree,
    map: &mut BTreeMap<u32, u32>,
    state: &mut u64,
    puts: u32,
) -> Result<bool, AllocError> {
    let key = next_number(state) % 2000;
    let val = next_number(state);
    if val % 4 < puts {
        Ok(tree.put(key, val)? == map.insert(key, val)?)
    } else {
        Ok(tree.del(key) == map.remove(&key))
    }
}

/// Whether a hundred calls are answered alike.
fn are_alike(
    tree: &mut RankTree,
    map: &mut BTreeMap<u32, u32>,
    state: &mut u64,
    puts: u32,
) -> Result<bool, AllocError> {
    for _ in 0..100u32 {
        if !is_alike(tree, map, state, puts)? {
            return Ok(false);
        }
    }
    Ok(true)
}

/// The tree after a cut and a join, and whether each side had its keys alone.
fn cut_apart(tree: RankTree, key: u32) -> Result<(RankTree, bool), AllocError> {
    let (low, high) = cut(tree, key)?;
    let apart = low.get(key).is_none() && high.rank(key) == 0;
    Ok((RankTree::concat(low, high)?, apart))
}

/// The first hundred calls that the ordered map of std answers otherwise, or after which a cut or a key is wrong, if
/// there are any: many more puts than removals, and then more removals.
fn first_unlike(alloc: Global) -> Result<Option<usize>, AllocError> {
    let mut tree = RankTree::new(alloc);
    let mut map = BTreeMap::new(alloc);
    let mut state = 1;
    for hundred in 0..90usize {
        let puts = if hundred < 50 { 3 } else { 1 };
        let alike = are_alike(&mut tree, &mut map, &mut state, puts)?;
        let (next, apart) = cut_apart(tree, next_number(&mut state) % 2000)?;
        tree = next;
        if !alike || !apart || !is_same(&tree, &map) {
            return Ok(Some(hundred));
        }
    }
    Ok(None)
}

#[test]
fn a_map_is_that_of_std(rt: HostRuntime) -> Result<(), Fail> {
    all_hold(first_unlike(rt.alloc())?)
}
