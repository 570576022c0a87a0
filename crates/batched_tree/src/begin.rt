//! Cuts a set into pieces, and distributes the calls of a batch among them.
ghost use Rattle.std.specs.Prelude.{◌≡◌, ◌+◌, true, [], length, map, IfOk};
ghost use Rattle.std.specs.List.{list_all};
ghost use Rattle.key_sets.specs.Groups.{group_of};
ghost use Rattle.batched_tree.specs.Calls.{is_of_tree, key_of};
ghost use Rattle.batched_tree.specs.Code.Begin.{IsCutPiece, AreCutPieces};

pub(crate) mod groups;

use crate::piece::Piece;
use crate::pool::Pool;
use seq_objects::Call;
use std::alloc::{AllocError, Global};
use tree_forest::{Forest, Remaining};

/// A piece without calls. Its vectors come from the pool.
fn piece_of(forest: Forest, beyond: Option<u32>, pool: &mut Pool) -> Piece
    ensures { IsCutPiece forest.keys [] beyond result }
{
    Piece {
        forest,
        calls: pool.take_calls(),
        replies: pool.take_replies(),
        beyond,
    }
}

/// The single piece of a batch with one group. It gets the forest uncut, and all calls.
fn whole_piece(
    alloc: Global,
    set: Forest,
    calls: &[Call],
    pool: &mut Pool,
) -> Result<Vec<Piece>, AllocError>
    requires { list_all (λ call. is_of_tree call.op) calls.now ≡ true }
    ensures pieces { IfOk result (λ v. AreCutPieces set.keys calls.now [] v.items) }
    ensures count { IfOk result (λ v. length v.items ≡ 1) }
{
    let mut pieces = Vec::with_capacity(alloc, 1)?;
    let mut piece = piece_of(set, None, pool);
    piece.calls.extend_from_slice(calls)?;
    pieces.push(piece)?;
    Ok(pieces)
}

/// Cuts the set at the starts into pieces without calls. The first piece has the keys below the first start.
fn empty_pieces(
    alloc: Global,
    set: Forest,
    starts: &[u32],
    pool: &mut Pool,
) -> Result<Vec<Piece>, AllocError>
    ensures pieces { IfOk result (λ v. AreCutPieces set.keys [] starts.now v.items) }
    ensures count { IfOk result (λ v. length v.items ≡ length starts.now + 1) }
{
    let mut pieces = Vec::with_capacity(alloc, starts.len() + 1)?;
    let mut rest = Remaining::new(set);
    for start in starts {
        let forest = rest.split_off_below(*start, &mut pool.trees)?;
        pieces.push(piece_of(forest, rest.least(), pool))?;
    }
    pieces.push(piece_of(rest.into_forest(), None, pool))?;
    Ok(pieces)
}

/// The pieces of a batch, one for each group. `starts` has the least key of each group but the first, and `groups` the
/// group of each call.
pub(crate) fn pieces_of(
    alloc: Global,
    set: Forest,
    starts: &[u32],
    calls: &[Call],
    groups: &[usize],
    pool: &mut Pool,
) -> Result<Vec<Piece>, AllocError>
    requires of_tree { list_all (λ call. is_of_tree call.op) calls.now ≡ true }
    requires groups { groups.now ≡ map (λ call. group_of (key_of call) starts.now) calls.now }
    ensures pieces { IfOk result (λ v. AreCutPieces set.keys calls.now starts.now v.items) }
    ensures count { IfOk result (λ v. length v.items ≡ length starts.now + 1) }
{
    if starts.is_empty() {
        return whole_piece(alloc, set, calls, pool);
    }
    let mut pieces = empty_pieces(alloc, set, starts, pool)?;
    for (place, call) in calls.iter().enumerate() {
        pieces[groups[place]].calls.push(*call)?;
    }
    Ok(pieces)
}
