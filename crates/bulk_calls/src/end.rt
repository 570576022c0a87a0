//! The end of a batch: its ranges are joined, and each answer goes to its call's place.
ghost use Rattle.std.specs.Prelude.{◌≡◌, ◌≤◌, false, length, IfOk};
ghost use Rattle.key_sets.specs.Keys.{StrictlyAscends};
ghost use Rattle.keyed_pieces.specs.Dealing.{queued, HaveReplies};
ghost use Rattle.keyed_pieces.specs.Ranges.{side_by_side, merged};
ghost use Rattle.tree_forest.specs.Views.{most_trees};
ghost use Rattle.forest_cuts.specs.Parts.{keys_of_each};
ghost use Rattle.bulk_calls.specs.Bulk.{operations};
ghost use Rattle.bulk_calls.specs.Singles.{chopped, singles};
ghost use Rattle.bulk_calls.specs.Pieces.{ranges_after, answers_of};

use crate::call::BulkCall;
use crate::piece::Served;
use crate::replies::Replies;
use forest_cuts::join_forests;
use keyed_pieces::merge;
use std::alloc::{AllocError, Global};
use std::collections::VecDeque;
use tree_forest::{Forest, ForestPool};

/// The ranges that pieces leave, and their answers.
fn parts_of(
    alloc: Global,
    outs: Vec<Served>,
) -> Result<(Vec<Forest>, Vec<VecDeque<bool>>), AllocError>
    ensures ranges { IfOk result (λ p. keys_of_each p.0.items ≡ ranges_after outs.items) }
    ensures answers { IfOk result (λ p. queued p.1.items ≡ answers_of outs.items) }
{
    let mut forests = Vec::with_capacity(alloc, outs.len())?;
    let mut answers = Vec::with_capacity(alloc, outs.len())?;
    for out in outs {
        forests.push(out.forest)?;
        answers.push(out.answers)?;
    }
    Ok((forests, answers))
}

/// One forest of the ranges that pieces leave, with few trees; and the answers in the order of the operations, where
/// `groups` has the piece of each.
pub(crate) fn join_outs(
    alloc: Global,
    groups: &[usize],
    outs: Vec<Served>,
    pool: &mut ForestPool,
) -> Result<(Forest, Vec<bool>), AllocError>
    requires ascend { StrictlyAscends (side_by_side (ranges_after outs.items)) }
    requires answered { HaveReplies groups.now (answers_of outs.items) }
    ensures keys { IfOk result (λ p. p.0.keys ≡ side_by_side (ranges_after outs.items)) }
    ensures trees { IfOk result (λ p. p.0.trees ≤ most_trees) }
    ensures answers { IfOk result (λ p. p.1.items ≡ merged false groups.now (answers_of outs.items)) }
{
    let (forests, answers) = parts_of(alloc, outs)?;
    let mut forest = join_forests(alloc, forests, pool)?;
    forest.compact(pool)?;
    let answers = merge(alloc, groups, answers)?;
    Ok((forest, answers))
}

/// The replies to calls, from the answers to all their keys.
pub(crate) fn replies_of(
    alloc: Global,
    calls: &[BulkCall],
    answers: &[bool],
) -> Result<Vec<Replies>, AllocError>
    requires { length answers.now ≡ length (singles (operations calls.now)) }
    ensures { IfOk result (λ v. v.items ≡ chopped (operations calls.now) answers.now) }
{
    let mut replies = Vec::with_capacity(alloc, calls.len())?;
    let mut left = answers;
    for call in calls {
        let (own, rest) = left.split_at(call.what().keys().len());
        replies.push(Replies::of(own.to_vec(alloc)?))?;
        left = rest;
    }
    Ok(replies)
}
