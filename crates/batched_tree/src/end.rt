//! Joins the forests of the pieces, and merges their replies.
ghost use Rattle.std.specs.Prelude.{◌≡◌, ◌<◌, [], ◌∷◌, length, drop, slice_get, IfOk};
ghost use Rattle.std.specs.List.{AllByRecursion};
ghost use Rattle.batched_tree.specs.declared.piece.Served.{Served as ServedOf};
ghost use Rattle.batched_tree.specs.Code.End.{merged_replies, replies_of, joined_keys, CanJoin};

use crate::piece::Served;
use crate::pool::Pool;
use seq_objects::Reply;
use std::alloc::{AllocError, Global};
use std::marker::Model;
use tree_forest::Forest;

/// A piece's replies from `at` on, which no call has yet. Contracts see them as a list.
#[derive(Drop)]
pub(crate) struct Replies {
    all: Vec<Reply>,
    at: usize,
}

impl Model for Replies {
    ghost use Rattle.std.specs.Prelude.{List, drop};
    ghost use Rattle.seq_objects.specs.declared.reply.Reply.{Reply};

    ghost Value = { List Reply };

    ghost view = { λ r. drop r.at r.all.items };
}

impl Replies {
    fn new(all: Vec<Reply>) -> Replies
        ensures { result ≡ all.items }
    {
        Replies { all, at: 0 }
    }

    fn next(&mut self) -> Option<Reply>
        ensures reply { result ≡ slice_get self.old 0 }
        ensures rest { self.new ≡ drop 1 self.old }
    {
        if self.at < self.all.len() {
            let reply = self.all[self.at];
            self.at += 1;
            Some(reply)
        } else {
            None
        }
    }
}

/// Joins the forests of all pieces from left to right, and collects each piece's replies.
fn join_pieces(
    alloc: Global,
    outs: Vec<Served>,
    pool: &mut Pool,
) -> Result<(Forest, Vec<Replies>), AllocError>
    requires { CanJoin [] outs.items }
    ensures keys { IfOk result (λ p. p.0.keys ≡ joined_keys outs.items) }
    ensures replies { IfOk result (λ p. p.1.items ≡ replies_of outs.items) }
{
    let mut replies = Vec::with_capacity(alloc, outs.len())?;
    let mut pieces = outs.into_iter();
    let mut forest = match pieces.next() {
        Some(first) => {
            replies.push(Replies::new(first.replies))?;
            pool.keep_calls(first.calls);
            first.forest
        }
        None => Forest::new(alloc),
    };
    for served in pieces {
        forest.append(served.forest, &mut pool.trees)?;
        replies.push(Replies::new(served.replies))?;
        pool.keep_calls(served.calls);
    }
    Ok((forest, replies))
}

/// The replies in call order, where `groups` has the group of each call. Each call takes the next reply of its group.
fn merge_replies(
    alloc: Global,
    groups: &[usize],
    pieces: Vec<Replies>,
    pool: &mut Pool,
) -> Result<Vec<Reply>, AllocError>
    requires { AllByRecursion (λ group. group < length pieces.items) groups.now }
    ensures { IfOk result (λ v. v.items ≡ merged_replies groups.now pieces.items) }
{
    let mut left = pieces;
    let mut replies = Vec::with_capacity(alloc, groups.len())?;
    for group in groups {
        let next = left[*group].next();
        replies.push(next.unwrap_or(Reply::Empty))?;
    }
    for piece in left {
        pool.keep_replies(piece.all);
    }
    Ok(replies)
}

/// The joined forest of all pieces, and the replies in call order, where `groups` has the group of each call. The
/// forest and the replies of an only piece are returned as they are.
pub(crate) fn join_outs(
    alloc: Global,
    groups: &[usize],
    outs: Vec<Served>,
    pool: &mut Pool,
) -> Result<(Forest, Vec<Reply>), AllocError>
    requires can { CanJoin [] outs.items }
    requires groups { AllByRecursion (λ group. group < length (replies_of outs.items)) groups.now }
    requires single { (out : ServedOf) → outs.items ≡ out ∷ []
        → out.replies.items ≡ merged_replies groups.now (replies_of outs.items) }
    ensures keys { IfOk result (λ p. p.0.keys ≡ joined_keys outs.items) }
    ensures replies { IfOk result (λ p. p.1.items ≡ merged_replies groups.now (replies_of outs.items)) }
{
    let mut outs = outs;
    if outs.len() == 1 {
        if let Some(only) = outs.pop() {
            pool.keep_calls(only.calls);
            return Ok((only.forest, only.replies));
        }
    }
    let (forest, pieces) = join_pieces(alloc, outs, pool)?;
    let replies = merge_replies(alloc, groups, pieces, pool)?;
    Ok((forest, replies))
}
