//! The map, and how it serves a batch: cut, run the pieces, join the ranges, merge the replies.
ghost use Rattle.std.specs.Prelude.{◌≡◌, ◌<◌, [], IfOk, IsOk};
ghost use Rattle.rank_nodes.specs.Maps.{Ascends};
ghost use Rattle.batched_map.specs.Maps.{map_after, map_replies, operations};
ghost use Rattle.batched_map.specs.Batches.{AreMapBatch};
ghost use Rattle.batched_map.specs.Code.Pieces.{Meets};
ghost use Rattle.seq_objects.specs.Pieces.{AllMeet};

use crate::begin::{begin, operations_of};
use crate::call::MapCall;
use crate::end::join;
use crate::piece::{Piece, Served};
use crate::serve::RangePieces;
use keyed_pieces::merge;
use piece_threads::{run_in_turn, run_pieces, threads_for};
use rank_tree::RankTree;
use seq_objects::Reply;
use std::alloc::{AllocError, Global};
use std::marker::Model;
use std::thread::Threads;

/// An ordered map with rank and select. Contracts see the list of its entries, whose keys ascend.
#[derive(Drop)]
pub struct RankBook {
    tree: RankTree,
}

impl Model for RankBook {
    ghost use Rattle.std.specs.Prelude.{List};
    ghost use Rattle.rank_nodes.specs.declared.entry.Entry.{Entry};

    ghost Value = { List Entry };

    ghost view = { λ book. book.tree };

    ghost invariant = { λ book. Unit {0} };
}

impl RankBook {
    /// A map without entries.
    ///
    /// Memory: none.
    pub fn new(alloc: Global) -> Result<RankBook, AllocError>
        ensures opening { IfOk result (λ book. book ≡ []) }
        ensures sure { IsOk result }
    {
        Ok(RankBook {
            tree: RankTree::new(alloc),
        })
    }

    /// A lemma for proofs, which does nothing: the keys strictly ascend.
    pub fn keys_ascend(&self)
        ensures { Ascends self.now }
    {
        self.tree.keys_ascend();
    }

    /// Serves a batch, and returns the replies in the order of its calls. The map is dropped when memory runs out.
    ///
    /// A batch has too few calls for a second thread by `threads_for`, so its pieces are one bundle, which is run on the
    /// caller's thread.
    pub fn batch<R: Threads + Sync>(
        self,
        rt: &R,
        alloc: Global,
        calls: &[MapCall],
    ) -> Result<(RankBook, Vec<Reply>), AllocError>
        requires { AreMapBatch calls.now }
        ensures entries { IfOk result (λ p. p.0 ≡ map_after self (operations calls.now)) }
        ensures replies { IfOk result (λ p. p.1.items ≡ map_replies self (operations calls.now)) }
    {
        let threads = threads_for(calls.len());
        self.batch_in_threads(rt, alloc, calls, threads)
    }

    /// As `batch`, with the pieces shared out among at most `threads` threads.
    pub fn batch_in_threads<R: Threads + Sync>(
        self,
        rt: &R,
        alloc: Global,
        calls: &[MapCall],
        threads: usize,
    ) -> Result<(RankBook, Vec<Reply>), AllocError>
        requires batch { AreMapBatch calls.now }
        requires some { 0 < threads }
        ensures entries { IfOk result (λ p. p.0 ≡ map_after self (operations calls.now)) }
        ensures replies { IfOk result (λ p. p.1.items ≡ map_replies self (operations calls.now)) }
    {
        self.batch_by(
            alloc,
            calls,
            &|pieces: Vec<Piece>| -> Result<Vec<Served>, AllocError>
                requires { 0 < threads }
                ensures { IfOk result (λ outs. AllMeet Meets pieces.items outs.items) }
            { run_pieces::<R, Piece, Served, RangePieces>(rt, alloc, pieces, threads) },
        )
    }

    /// As `batch`, with the pieces run one after another in the caller's thread.
    pub fn serve(
        self,
        alloc: Global,
        calls: &[MapCall],
    ) -> Result<(RankBook, Vec<Reply>), AllocError>
        requires { AreMapBatch calls.now }
        ensures entries { IfOk result (λ p. p.0 ≡ map_after self (operations calls.now)) }
        ensures replies { IfOk result (λ p. p.1.items ≡ map_replies self (operations calls.now)) }
    {
        self.batch_by(
            alloc,
            calls,
            &|pieces: Vec<Piece>| -> Result<Vec<Served>, AllocError>
                ensures { IfOk result (λ outs. AllMeet Meets pieces.items outs.items) }
            { run_in_turn::<Piece, Served, RangePieces>(alloc, pieces) },
        )
    }

    /// As `batch`, with the pieces run by `run`.
    fn batch_by<F: Fn(Vec<Piece>) -> Result<Vec<Served>, AllocError>>(
        self,
        alloc: Global,
        calls: &[MapCall],
        run: &F,
    ) -> Result<(RankBook, Vec<Reply>), AllocError>
        requires batch { AreMapBatch calls.now }
        requires callable { F.IsAlwaysCallable run.now }
        requires meets { (pieces : _) (outs : _) → F.post run.now pieces (Ok outs) → AllMeet Meets pieces.items outs.items }
        ensures entries { IfOk result (λ p. p.0 ≡ map_after self (operations calls.now)) }
        ensures replies { IfOk result (λ p. p.1.items ≡ map_replies self (operations calls.now)) }
    {
        let RankBook { tree } = self;
        tree.keys_ascend();
        let operations = operations_of(alloc, calls)?;
        let (pieces, groups) = begin(alloc, tree, &operations)?;
        let outs = run(pieces)?;
        let (tree, replies) = join(alloc, outs)?;
        let replies = merge(alloc, &groups, replies)?;
        Ok((RankBook { tree }, replies))
    }
}
