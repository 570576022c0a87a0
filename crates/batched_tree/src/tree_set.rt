//! The set, and its implementation of `Batched`.
ghost use Rattle.std.specs.Prelude.{◌≡◌, ℕ, [], List, IfOk, IsOk};
ghost use Rattle.seq_objects.specs.Orders.{StrictlyAscends};
ghost use Rattle.seq_objects.specs.Serial.{replies_to_all, after_all, of_set};
ghost use Rattle.seq_objects.specs.Pieces.{AllMeet, BatchContext};
ghost use Rattle.batched_tree.specs.declared.piece.Piece.{Piece as PieceOf};
ghost use Rattle.batched_tree.specs.Calls.{MayServe};
ghost use Rattle.batched_tree.specs.Pieces.{Meets, Cut, IsContextOf};

use crate::begin::groups::{find_groups, find_keys};
use crate::begin::pieces_of;
use crate::end::join_outs;
use crate::piece::{Piece, Rest, Served};
use crate::pool::Pool;
use crate::serve::serve_piece;
use key_sets::find_starts;
use seq_objects::{Batched, Call, Reply};
use std::alloc::{AllocError, Global};
use std::marker::Model;
use tree_forest::Forest;

/// A set of numbers. Contracts see it as the strictly ascending list of its keys. Between batches the keys lie in at
/// most 65 trees. Its pool is made at the first batch, and lies in a box, so that a set moves as a few words.
#[derive(Drop)]
pub struct TreeSet {
    forest: Forest,
    pool: Option<Box<Pool>>,
}

impl Model for TreeSet {
    ghost use Rattle.std.specs.Prelude.{ℕ, List};

    ghost Value = { List ℕ };

    ghost view = { λ s. s.forest.keys };

    ghost use Rattle.std.specs.Prelude.{◌≤◌};
    ghost use Rattle.tree_forest.specs.Views.{most_trees};

    ghost invariant = { λ s. s.forest.trees ≤ most_trees };
}

/// The pool of a set, made where it has none.
fn pool_of(alloc: Global, pool: Option<Box<Pool>>) -> Result<Box<Pool>, AllocError> {
    let pool = match pool {
        Some(pool) => pool,
        None => Box::new(alloc, Pool::new(alloc))?,
    };
    Ok(pool)
}

impl TreeSet {
    /// An empty set.
    ///
    /// Memory: none.
    pub fn new(alloc: Global) -> Result<TreeSet, AllocError>
        ensures opening { IfOk result (λ s. s ≡ []) }
        ensures sure { IsOk result }
    {
        Ok(TreeSet {
            forest: Forest::new(alloc),
            pool: None,
        })
    }

    /// The keys of a set strictly ascend. The function does nothing; proofs use its contract.
    pub fn keys_ascend(&self)
        ensures { StrictlyAscends self.now }
    {
        self.forest.keys_ascend();
    }
}

impl Batched for TreeSet {
    type In = Piece;

    type Out = Served;

    type Rest = Rest;

    const MOST: u32 = 16;

    ghost MOST = { 16 };

    ghost content = { of_set };

    ghost may_serve = { MayServe };

    ghost cut = { Cut };

    ghost meets = { Meets };

    ghost is_context_of = { IsContextOf };

    fn begin(self, alloc: Global, calls: &[Call]) -> Result<(Rest, Vec<Piece>), AllocError> {
        self.forest.keys_ascend();
        let mut pool = pool_of(alloc, self.pool)?;
        let kept = &mut *pool;
        let (mut keys, mut starts) = kept.take_keys();
        let mut groups = kept.take_groups();
        find_keys(calls, &mut keys)?;
        find_starts(&keys, &mut starts)?;
        find_groups(&starts, calls, &mut groups)?;
        let pieces = pieces_of(alloc, self.forest, &starts, calls, &groups, kept)?;
        kept.keep_keys(keys, starts);
        Ok((Rest { groups, pool }, pieces))
    }

    fn piece(_alloc: Global, input: Piece) -> Result<Served, AllocError> {
        serve_piece(input)
    }

    fn end(
        alloc: Global,
        rest: Rest,
        outs: Vec<Served>,
    ) -> Result<(TreeSet, Vec<Reply>), AllocError>
        requires { (o : BatchContext (List ℕ) PieceOf) × IsContextOf rest o × AllMeet Meets o.ins outs.items }
        ensures replies { IfOk result (λ p. (o : BatchContext (List ℕ) PieceOf) → IsContextOf rest o
            → AllMeet Meets o.ins outs.items
            → p.1.items ≡ replies_to_all (of_set o.before) o.calls) }
        ensures content { IfOk result (λ p. (o : BatchContext (List ℕ) PieceOf) → IsContextOf rest o
            → AllMeet Meets o.ins outs.items → of_set p.0 ≡ after_all (of_set o.before) o.calls) }
    {
        let mut pool = rest.pool;
        let kept = &mut *pool;
        let (mut forest, replies) = join_outs(alloc, &rest.groups, outs, kept)?;
        forest.compact(&mut kept.trees)?;
        kept.keep_groups(rest.groups);
        let set = TreeSet {
            forest,
            pool: Some(pool),
        };
        Ok((set, replies))
    }
}
