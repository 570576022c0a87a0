//! Cutting a map into ranges, and dealing the operations of a batch to them.
ghost use Rattle.std.specs.Prelude.{◌≡◌, ◌+◌, ◌<◌, ◌≤◌, ◌^◌, length, drop, IfOk, OnOk};
ghost use Rattle.key_sets.specs.Keys.{StrictlyAscends};
ghost use Rattle.key_sets.specs.Groups.{distinct, group_of, group_size, AreStarts};
ghost use Rattle.keyed_pieces.specs.Dealing.{lists};
ghost use Rattle.batched_map.specs.Maps.{operations, keys_in};
ghost use Rattle.batched_map.specs.Code.Ranges.{range_of};
ghost use Rattle.batched_map.specs.Code.Pieces.{AreAdded, AreRanges, AreDealt, befores, groups_in, ranges_in, operations_in};

use crate::call::{MapCall, MapOp};
use crate::piece::{Piece, Range};
use key_sets::{find_starts, group_of, sort_distinct};
use keyed_pieces::deal;
use rank_tree::RankTree;
use std::alloc::{AllocError, Global};

/// The most starts of a batch: at most 16 ranges, of which each but the first has a start.
const MOST_STARTS: usize = 15;

/// What calls ask for, in their order.
pub(crate) fn operations_of(alloc: Global, calls: &[MapCall]) -> Result<Vec<MapOp>, AllocError>
    ensures { IfOk result (λ v. v.items ≡ operations calls.now) }
{
    let mut operations = Vec::with_capacity(alloc, calls.len())?;
    for call in calls {
        operations.push(call.what)?;
    }
    Ok(operations)
}

/// The distinct keys of operations, ascending.
fn keys_of(alloc: Global, operations: &[MapOp]) -> Result<Vec<u32>, AllocError>
    ensures { IfOk result (λ v. v.items ≡ distinct (keys_in operations.now)) }
{
    let mut keys = Vec::with_capacity(alloc, operations.len())?;
    for operation in operations {
        if let Some(key) = operation.key() {
            keys.push(key)?;
        }
    }
    sort_distinct(&mut keys);
    Ok(keys)
}

/// The keys with which the ranges but the first begin: the least key of each group of the batch's keys but the first.
/// Where there are no keys, there is one range.
fn starts_of(alloc: Global, operations: &[MapOp]) -> Result<Vec<u32>, AllocError>
    ensures starts { IfOk result (λ v. let keys = distinct (keys_in operations.now) in AreStarts (group_size (length keys)) keys v.items) }
    ensures ascends { IfOk result (λ v. StrictlyAscends v.items) }
{
    let keys = keys_of(alloc, operations)?;
    let mut starts = Vec::with_capacity(alloc, MOST_STARTS)?;
    if !keys.is_empty() {
        find_starts(&keys, &mut starts)?;
    }
    Ok(starts)
}

/// Cuts a part of a map at the starts, and appends its ranges. `before` keys of the map are before the part. The start
/// in the middle comes first, so that each cut is of about half as many keys as the one before.
fn cut_part(
    part: RankTree,
    before: u64,
    starts: &[u32],
    ranges: &mut Vec<Range>,
) -> Result<(), AllocError>
    requires few { before + length part ≤ 2 ^ 32 }
    requires ascends { StrictlyAscends starts.now }
    ensures { OnOk result (AreAdded before part starts.now ranges.old.items ranges.new.items) }
{
    let (lows, rest) = starts.split_at(starts.len() / 2);
    let Some((start, highs)) = rest.split_first() else {
        ranges.push(Range { tree: part, before })?;
        return Ok(());
    };
    let (low, high) = part.split_below(*start)?;
    let between = before + low.len();
    cut_part(low, before, lows, ranges)?;
    cut_part(high, between, highs, ranges)?;
    Ok(())
}

/// Cuts a map at the starts.
fn cut(alloc: Global, tree: RankTree, starts: &[u32]) -> Result<Vec<Range>, AllocError>
    requires { StrictlyAscends starts.now }
    ensures { IfOk result (λ v. AreRanges tree starts.now v.items) }
{
    let _size = tree.len();
    let mut ranges = Vec::with_capacity(alloc, starts.len() + 1)?;
    cut_part(tree, 0, starts, &mut ranges)?;
    Ok(ranges)
}

/// The number of the range in which an index falls: the last one where it is past all keys.
fn range_at(ranges: &[Range], index: u64) -> usize
    requires { 0 < length ranges.now }
    ensures { result ≡ group_of index (drop 1 (befores ranges.now)) }
{
    let mut number = 0;
    while number + 1 < ranges.len() && ranges[number + 1].before <= index {
        number += 1;
    }
    number
}

/// The number of the range of an operation.
fn range_of(starts: &[u32], ranges: &[Range], operation: MapOp) -> usize
    requires ascends { StrictlyAscends starts.now }
    requires some { 0 < length ranges.now }
    ensures { result ≡ range_of starts.now (drop 1 (befores ranges.now)) operation }
{
    match operation {
        MapOp::Put(key, _) | MapOp::Del(key) | MapOp::Get(key) | MapOp::Rank(key) => {
            group_of(starts, key)
        }
        MapOp::Nth(index) => range_at(ranges, u64::from(index)),
    }
}

/// The number of the range of each operation.
fn groups_of(
    alloc: Global,
    starts: &[u32],
    ranges: &[Range],
    operations: &[MapOp],
) -> Result<Vec<usize>, AllocError>
    requires ascends { StrictlyAscends starts.now }
    requires some { 0 < length ranges.now }
    ensures { IfOk result (λ v. v.items ≡ groups_in starts.now ranges.now operations.now) }
{
    let mut groups = Vec::with_capacity(alloc, operations.len())?;
    for operation in operations {
        groups.push(range_of(starts, ranges, *operation))?;
    }
    Ok(groups)
}

/// A piece for each range, with the operations that were dealt to it.
fn pieces_of(
    alloc: Global,
    ranges: Vec<Range>,
    dealt: Vec<Vec<MapOp>>,
) -> Result<Vec<Piece>, AllocError>
    requires { length ranges.items ≡ length dealt.items }
    ensures ranges { IfOk result (λ v. ranges_in v.items ≡ ranges.items) }
    ensures operations { IfOk result (λ v. operations_in v.items ≡ lists dealt.items) }
{
    let mut pieces = Vec::with_capacity(alloc, ranges.len())?;
    for (range, operations) in ranges.into_iter().zip(dealt) {
        pieces.push(Piece { range, operations })?;
    }
    Ok(pieces)
}

/// The pieces of a batch, and the number of the piece of each operation.
pub(crate) fn begin(
    alloc: Global,
    tree: RankTree,
    operations: &[MapOp],
) -> Result<(Vec<Piece>, Vec<usize>), AllocError>
    ensures { IfOk result (λ p. AreDealt tree operations.now p.0.items p.1.items) }
{
    let starts = starts_of(alloc, operations)?;
    let ranges = cut(alloc, tree, &starts)?;
    let groups = groups_of(alloc, &starts, &ranges, operations)?;
    let dealt = deal(alloc, operations, &groups, ranges.len())?;
    let pieces = pieces_of(alloc, ranges, dealt)?;
    Ok((pieces, groups))
}
