//! Serves a piece: its calls on its forest, one after another.
ghost use Rattle.std.specs.Prelude.{◌≡◌, true, IfOk, OnOk};
ghost use Rattle.seq_objects.specs.Objects.{after, reply_to};
ghost use Rattle.seq_objects.specs.Serial.{of_set};
ghost use Rattle.batched_tree.specs.Calls.{is_of_tree};
ghost use Rattle.batched_tree.specs.Replies.{reply_within};
ghost use Rattle.batched_tree.specs.Pieces.{Meets};

use crate::piece::{Piece, Served};
use seq_objects::{Op, Reply};
use std::alloc::AllocError;
use tree_forest::Forest;

/// Serves one operation on a forest. `beyond` is the least key of the whole set beyond the forest's range.
fn serve_one(forest: &mut Forest, beyond: Option<u32>, op: Op) -> Result<Reply, AllocError>
    requires { is_of_tree op ≡ true }
    ensures reply { IfOk result (λ reply. reply ≡ reply_within beyond op (reply_to (of_set forest.old.keys) op)) }
    ensures after { OnOk result (of_set forest.new.keys ≡ after (of_set forest.old.keys) op) }
{
    let reply = match op {
        Op::TreeInsert(_, key) => Reply::yes_or_no(forest.insert(key)?),
        Op::TreeRemove(_, key) => Reply::yes_or_no(forest.remove(key)),
        Op::TreeFind(_, key) => Reply::yes_or_no(forest.find(key)),
        Op::TreeNext(_, key) => Reply::number_or_empty(forest.next(key).or(beyond)),
        _ => unreachable!(),
    };
    Ok(reply)
}

/// Serves the calls of a piece in their order.
pub(crate) fn serve_piece(piece: Piece) -> Result<Served, AllocError>
    ensures { IfOk result (λ served. Meets piece served) }
{
    let beyond = piece.beyond;
    let calls = piece.calls;
    let mut forest = piece.forest;
    let mut replies = piece.replies;
    replies.clear();
    for call in &calls {
        replies.push(serve_one(&mut forest, beyond, call.op)?)?;
    }
    Ok(Served {
        forest,
        replies,
        calls,
    })
}
