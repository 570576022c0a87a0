//! Cutting a batch into pieces, each of one range of keys.
ghost use Rattle.std.specs.Prelude.{◌≡◌, ◌≤◌, ◌++◌, map, length, IfOk, OnOk};
ghost use Rattle.key_sets.specs.Keys.{StrictlyAscends};
ghost use Rattle.key_sets.specs.Groups.{distinct, group_of};
ghost use Rattle.keyed_pieces.specs.Dealing.{lists};
ghost use Rattle.keyed_pieces.specs.Ranges.{ranges};
ghost use Rattle.forest_cuts.specs.Parts.{keys_of_each};
ghost use Rattle.bulk_calls.specs.Bulk.{operations};
ghost use Rattle.bulk_calls.specs.Singles.{singles, each_as, keys_in};
ghost use Rattle.bulk_calls.specs.Pieces.{ranges_of, operations_of, IsCut};

use crate::call::BulkCall;
use crate::groups::groups_of;
use crate::op::BulkOp;
use crate::piece::{KeyOp, Piece};
use forest_cuts::cut_below_each;
use key_sets::{find_starts, sort_distinct};
use keyed_pieces::deal;
use keyed_pieces::laws::dealing_is_by_range;
use std::alloc::{AllocError, Global};
use tree_forest::{Forest, ForestPool};

/// Appends the keys of a call.
fn push_keys(all: &mut Vec<KeyOp>, what: &BulkOp) -> Result<(), AllocError>
    ensures { OnOk result (all.new.items ≡ all.old.items ++ each_as what.now.kind what.now.keys) }
{
    let kind = what.kind();
    let keys = what.keys();
    for key in keys {
        all.push(KeyOp { kind, key: *key })?;
    }
    Ok(())
}

/// The keys of all calls, those of a call directly after one another.
pub(crate) fn singles_of(alloc: Global, calls: &[BulkCall]) -> Result<Vec<KeyOp>, AllocError>
    ensures { IfOk result (λ v. v.items ≡ singles (operations calls.now)) }
{
    let mut all = Vec::with_capacity(alloc, calls.len())?;
    for call in calls {
        push_keys(&mut all, call.what())?;
    }
    Ok(all)
}

/// The distinct keys of operations, ascending.
fn distinct_keys(alloc: Global, operations: &[KeyOp]) -> Result<Vec<u32>, AllocError>
    ensures { IfOk result (λ v. v.items ≡ distinct (keys_in operations.now)) }
{
    let mut keys = Vec::with_capacity(alloc, operations.len())?;
    for operation in operations {
        keys.push(operation.key)?;
    }
    sort_distinct(&mut keys);
    Ok(keys)
}

/// The keys with which the ranges of a batch but the first begin.
fn starts_of(alloc: Global, operations: &[KeyOp]) -> Result<Vec<u32>, AllocError>
    ensures ascend { IfOk result (λ v. StrictlyAscends v.items) }
    ensures few { IfOk result (λ v. length v.items ≤ 15) }
{
    let keys = distinct_keys(alloc, operations)?;
    let mut starts = Vec::new(alloc);
    if keys.is_empty() {
        return Ok(starts);
    }
    find_starts(&keys, &mut starts)?;
    Ok(starts)
}

/// The group of each operation, and the operations of each group, where the ranges but the first begin with `starts`.
fn deal_out(
    alloc: Global,
    operations: &[KeyOp],
    starts: &[u32],
) -> Result<(Vec<usize>, Vec<Vec<KeyOp>>), AllocError>
    requires ascend { StrictlyAscends starts.now }
    requires few { length starts.now ≤ 15 }
    ensures groups { IfOk result (λ p. p.0.items ≡ map (λ operation. group_of operation.key starts.now) operations.now) }
    ensures dealt { IfOk result (λ p. lists p.1.items ≡ ranges (λ operation. operation.key) starts.now operations.now) }
{
    dealing_is_by_range::<KeyOp, bool>();
    let groups = groups_of(alloc, operations, starts)?;
    let dealt = deal(alloc, operations, &groups, starts.len() + 1)?;
    Ok((groups, dealt))
}

/// A piece for each range, with the operations in it.
fn pieces_of(
    alloc: Global,
    forests: Vec<Forest>,
    operations: Vec<Vec<KeyOp>>,
) -> Result<Vec<Piece>, AllocError>
    requires { length operations.items ≡ length forests.items }
    ensures ranges { IfOk result (λ v. ranges_of v.items ≡ keys_of_each forests.items) }
    ensures operations { IfOk result (λ v. operations_of v.items ≡ lists operations.items) }
{
    let mut pieces = Vec::with_capacity(alloc, forests.len())?;
    let mut dealt = operations.into_iter();
    for forest in forests {
        if let Some(operations) = dealt.next() {
            pieces.push(Piece { forest, operations })?;
        }
    }
    Ok(pieces)
}

/// The pieces of a batch, and the piece of each operation: the distinct keys are cut into at most 16 groups, and each
/// piece has the range of one.
pub(crate) fn cut_batch(
    alloc: Global,
    forest: Forest,
    operations: &[KeyOp],
    pool: &mut ForestPool,
) -> Result<(Vec<usize>, Vec<Piece>), AllocError>
    ensures cut { IfOk result (λ p. IsCut forest.keys operations.now p.0.items p.1.items) }
    ensures few { IfOk result (λ p. length p.1.items ≤ 16) }
{
    let starts = starts_of(alloc, operations)?;
    let (groups, dealt) = deal_out(alloc, operations, &starts)?;
    let forests = cut_below_each(alloc, forest, &starts, pool)?;
    let pieces = pieces_of(alloc, forests, dealt)?;
    Ok((groups, pieces))
}
