//! The groups of a batch's keys: a key is looked up among the starts of the ranges by four comparisons.
ghost use Rattle.std.specs.Prelude.{◌≡◌, ◌+◌, ◌*◌, ◌<◌, ◌≤◌, ℕ, List, length, map, IfOk};
ghost use Rattle.key_sets.specs.Keys.{StrictlyAscends};
ghost use Rattle.key_sets.specs.Groups.{group_of};
ghost use Rattle.bulk_calls.specs.Code.Lookup.{IsFilled, Rises, IsBetween};

use crate::piece::KeyOp;
use std::alloc::{AllocError, Global};

/// The most starts: there are at most sixteen ranges, and each but the first has one.
const PLACES: usize = 15;

/// The starts in front, and the greatest number at all places behind them.
fn places_of(starts: &[u32]) -> [u32; PLACES]
    requires { length starts.now ≤ 15 }
    ensures { IsFilled starts.now result }
{
    let mut places = [u32::MAX; PLACES];
    for (place, start) in starts.iter().enumerate() {
        places[place] = *start;
    }
    places
}

/// A step of the binary search for the first number above a key, which stands at one of twice `half` places from `low`
/// on. It answers where the half that has the number begins.
#[inline]
fn half_of(places: &[u32; PLACES], key: u32, low: usize, half: usize) -> usize
    requires rises { Rises places.now }
    requires between { IsBetween key places.now low (half * 2) }
    requires some { 0 < half }
    requires within { low + half * 2 ≤ 16 }
    ensures between { IsBetween key places.now result half }
    ensures within { result + half ≤ 16 }
{
    let middle = low + half;
    if places[middle - 1] <= key {
        middle
    } else {
        low
    }
}

/// How many of the first `count` places have numbers that are at most the key.
#[inline]
fn group_among(places: &[u32; PLACES], count: usize, key: u32) -> usize
    requires rises { Rises places.now }
    requires few { count ≤ 15 }
    ensures { (starts : List ℕ) → IsFilled starts places.now → length starts ≡ count → result ≡ group_of key starts }
{
    let eighth = half_of(places, key, 0, 8);
    let fourth = half_of(places, key, eighth, 4);
    let second = half_of(places, key, fourth, 2);
    let group = half_of(places, key, second, 1);
    group.min(count)
}

/// The group of each operation, where the ranges but the first begin with `starts`.
pub(crate) fn groups_of(
    alloc: Global,
    operations: &[KeyOp],
    starts: &[u32],
) -> Result<Vec<usize>, AllocError>
    requires ascend { StrictlyAscends starts.now }
    requires few { length starts.now ≤ 15 }
    ensures { IfOk result (λ v. v.items ≡ map (λ operation. group_of operation.key starts.now) operations.now) }
{
    let places = places_of(starts);
    let count = starts.len();
    let mut groups = Vec::with_capacity(alloc, operations.len())?;
    for operation in operations {
        groups.push(group_among(&places, count, operation.key))?;
    }
    Ok(groups)
}
