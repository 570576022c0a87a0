//! The set, and how it serves a batch: cut, run the pieces, join the ranges, cut the answers by call.
ghost use Rattle.std.specs.Prelude.{◌≡◌, ◌<◌, ◌≤◌, ℕ, List, [], length, IfOk, IsOk};
ghost use Rattle.key_sets.specs.Keys.{StrictlyAscends};
ghost use Rattle.bulk_calls.specs.Bulk.{bulk_after, bulk_replies, operations};
ghost use Rattle.bulk_calls.specs.Batches.{AreBulkBatch};
ghost use Rattle.bulk_calls.specs.declared.piece.Piece.{Piece as PieceOf};
ghost use Rattle.bulk_calls.specs.Pieces.{Meets, IsContextOf};
ghost use Rattle.seq_objects.specs.Pieces.{AllMeet};
ghost use Rattle.limits.specs.declared.TheConstants.{MOST_WORKERS};

use crate::begin::{cut_batch, singles_of};
use crate::call::BulkCall;
use crate::end::{join_outs, replies_of};
use crate::piece::{KeyOp, Piece, Rest, Served};
use crate::replies::Replies;
use crate::serve::RangePieces;
use keyed_pieces::laws::dealing_is_by_range;
use piece_threads::{run_in_turn, run_pieces, threads_for};
use std::alloc::{AllocError, Global};
use std::marker::Model;
use std::thread::Threads;
use tree_forest::{Forest, ForestPool};

/// A set of numbers below 2^32. Contracts see the list of its keys, which strictly ascends. Between batches its keys
/// stand in at most 65 trees.
#[derive(Drop)]
pub struct BulkSet {
    forest: Forest,
    pool: ForestPool,
}

impl Model for BulkSet {
    ghost use Rattle.std.specs.Prelude.{ℕ, List, ◌≤◌};
    ghost use Rattle.tree_forest.specs.Views.{most_trees};

    ghost Value = { List ℕ };

    ghost view = { λ s. s.forest.keys };

    ghost invariant = { λ s. s.forest.trees ≤ most_trees };
}

/// The number of keys of all calls together.
fn keys_of(calls: &[BulkCall]) -> usize
    requires { length calls.now ≤ MOST_WORKERS }
{
    let mut keys = 0;
    for call in calls {
        keys += call.what().keys().len();
    }
    keys
}

impl BulkSet {
    /// The empty set.
    ///
    /// Memory: none.
    pub fn new(alloc: Global) -> Result<BulkSet, AllocError>
        ensures opening { IfOk result (λ s. s ≡ []) }
        ensures sure { IsOk result }
    {
        Ok(BulkSet {
            forest: Forest::new(alloc),
            pool: ForestPool::new(alloc),
        })
    }

    /// The keys of each set strictly ascend. It is for proofs, and does nothing.
    pub fn keys_ascend(&self)
        ensures { StrictlyAscends self.now }
    {
        self.forest.keys_ascend();
    }

    /// Cuts a batch into at most 16 pieces, each of which may be served on its own, in any thread. The set is dropped when
    /// memory runs out.
    pub fn begin(self, alloc: Global, calls: &[BulkCall]) -> Result<(Rest, Vec<Piece>), AllocError>
        requires { AreBulkBatch calls.now }
        ensures few { IfOk result (λ p. length p.1.items ≤ 16) }
        ensures remembers { IfOk result (λ p. IsContextOf p.0 self (operations calls.now) p.1.items) }
    {
        self.forest.keys_ascend();
        let BulkSet { forest, mut pool } = self;
        let operations = singles_of(alloc, calls)?;
        let (groups, pieces) = cut_batch(alloc, forest, &operations, &mut pool)?;
        Ok((Rest { groups, pool }, pieces))
    }

    /// Reassembles the set from what its pieces came to, and returns the replies in the order of the batch's calls. The set
    /// is dropped when memory runs out.
    ///
    /// The clauses are the law of pieces: if `outs` has one output for each piece, in the same order, and each meets its
    /// piece, the batch was served as its calls one after another.
    pub fn end(
        alloc: Global,
        rest: Rest,
        calls: &[BulkCall],
        outs: Vec<Served>,
    ) -> Result<(BulkSet, Vec<Replies>), AllocError>
        requires { (set : List ℕ) × (pieces : List PieceOf) × IsContextOf rest set (operations calls.now) pieces × AllMeet Meets pieces outs.items }
        ensures set { IfOk result (λ p. (set : List ℕ) (pieces : List PieceOf) → IsContextOf rest set (operations calls.now) pieces
            → AllMeet Meets pieces outs.items → p.0 ≡ bulk_after set (operations calls.now)) }
        ensures replies { IfOk result (λ p. (set : List ℕ) (pieces : List PieceOf) → IsContextOf rest set (operations calls.now) pieces
            → AllMeet Meets pieces outs.items → p.1.items ≡ bulk_replies set (operations calls.now)) }
    {
        dealing_is_by_range::<KeyOp, bool>();
        let Rest { groups, mut pool } = rest;
        let (forest, answers) = join_outs(alloc, &groups, outs, &mut pool)?;
        let replies = replies_of(alloc, calls, &answers)?;
        Ok((BulkSet { forest, pool }, replies))
    }

    /// Serves a batch, and returns the replies in the order of its calls. The set is dropped when memory runs out.
    ///
    /// It joins the threads that it starts: by `threads_for` a second one at 2,048 keys, the most of a batch.
    pub fn batch<R: Threads + Sync>(
        self,
        rt: &R,
        alloc: Global,
        calls: &[BulkCall],
    ) -> Result<(BulkSet, Vec<Replies>), AllocError>
        requires { AreBulkBatch calls.now }
        ensures set { IfOk result (λ p. p.0 ≡ bulk_after self (operations calls.now)) }
        ensures replies { IfOk result (λ p. p.1.items ≡ bulk_replies self (operations calls.now)) }
    {
        let threads = threads_for(keys_of(calls));
        self.batch_in_threads(rt, alloc, calls, threads)
    }

    /// As `batch`, with the pieces shared out among at most `threads` threads.
    pub fn batch_in_threads<R: Threads + Sync>(
        self,
        rt: &R,
        alloc: Global,
        calls: &[BulkCall],
        threads: usize,
    ) -> Result<(BulkSet, Vec<Replies>), AllocError>
        requires batch { AreBulkBatch calls.now }
        requires some { 0 < threads }
        ensures set { IfOk result (λ p. p.0 ≡ bulk_after self (operations calls.now)) }
        ensures replies { IfOk result (λ p. p.1.items ≡ bulk_replies self (operations calls.now)) }
    {
        self.batch_by(
            alloc,
            calls,
            &|pieces: Vec<Piece>| -> Result<Vec<Served>, AllocError>
                requires { 0 < threads }
                ensures { IfOk result (λ outs. AllMeet Meets pieces.items outs.items) }
            { run_pieces::<R, Piece, Served, RangePieces>(rt, alloc, pieces, threads) },
        )
    }

    /// As `batch`, with the pieces run one after another in the caller's thread.
    pub fn serve(
        self,
        alloc: Global,
        calls: &[BulkCall],
    ) -> Result<(BulkSet, Vec<Replies>), AllocError>
        requires { AreBulkBatch calls.now }
        ensures set { IfOk result (λ p. p.0 ≡ bulk_after self (operations calls.now)) }
        ensures replies { IfOk result (λ p. p.1.items ≡ bulk_replies self (operations calls.now)) }
    {
        self.batch_by(
            alloc,
            calls,
            &|pieces: Vec<Piece>| -> Result<Vec<Served>, AllocError>
                ensures { IfOk result (λ outs. AllMeet Meets pieces.items outs.items) }
            { run_in_turn::<Piece, Served, RangePieces>(alloc, pieces) },
        )
    }

    /// As `batch`, with the pieces run by `run`.
    fn batch_by<F: Fn(Vec<Piece>) -> Result<Vec<Served>, AllocError>>(
        self,
        alloc: Global,
        calls: &[BulkCall],
        run: &F,
    ) -> Result<(BulkSet, Vec<Replies>), AllocError>
        requires batch { AreBulkBatch calls.now }
        requires callable { F.IsAlwaysCallable run.now }
        requires meets { (pieces : _) (outs : _) → F.post run.now pieces (Ok outs) → AllMeet Meets pieces.items outs.items }
        ensures set { IfOk result (λ p. p.0 ≡ bulk_after self (operations calls.now)) }
        ensures replies { IfOk result (λ p. p.1.items ≡ bulk_replies self (operations calls.now)) }
    {
        let (rest, pieces) = self.begin(alloc, calls)?;
        let outs = run(pieces)?;
        BulkSet::end(alloc, rest, calls, outs)
    }
}
