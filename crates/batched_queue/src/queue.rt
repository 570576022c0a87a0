//! The queue, and how it serves a batch: cut, run the pieces, put the stripes back, make the replies.
ghost use Rattle.std.specs.Prelude.{◌≡◌, ◌<◌, [], replicate, IfOk};
ghost use Rattle.batched_queue.specs.Fifo.{fifo_after, fifo_replies, operations};
ghost use Rattle.batched_queue.specs.Batches.{AreFifoBatch};
ghost use Rattle.batched_queue.specs.Code.Stripes.{lists};
ghost use Rattle.batched_queue.specs.Code.Pieces.{Meets};
ghost use Rattle.seq_objects.specs.Pieces.{AllMeet};

use crate::begin::{cut_pieces, puts_of};
use crate::call::FifoCall;
use crate::end::{put_back, replies_of};
use crate::piece::{Piece, Served};
use crate::serve::StripePieces;
use piece_threads::{run_in_turn, run_pieces, threads_for};
use seq_objects::Reply;
use std::alloc::{AllocError, Global};
use std::collections::VecDeque;
use std::marker::Model;
use std::thread::Threads;

/// A FIFO queue in 16 stripes. Contracts see the list of its items, the oldest first.
///
/// An item is put in the stripe after that of the item before it, and item p stands in its stripe behind p / 16 others.
/// A stripe that its piece leaves less than an eighth full gives memory back, unless it is small.
#[derive(Drop)]
pub struct FifoQueue {
    stripes: Vec<VecDeque<u32>>,
    /// The stripe of the oldest item, or of the next put where the queue is empty.
    first: usize,
    count: usize,
}

impl Model for FifoQueue {
    ghost use Rattle.std.specs.Prelude.{ℕ, List};
    ghost use Rattle.batched_queue.specs.Code.Stripes.{lists, items_of, QueueInvariant};

    ghost Value = { List ℕ };

    ghost view = { λ q. items_of (lists q.stripes.items) q.first q.count };

    ghost invariant = { λ q. QueueInvariant (lists q.stripes.items) q.first q.count };
}

/// More items than any memory holds.
const TOO_MANY: usize = 1 << 62;

/// The 16 stripes of an empty queue.
fn empty_stripes(alloc: Global) -> Result<Vec<VecDeque<u32>>, AllocError>
    ensures { IfOk result (λ v. lists v.items ≡ replicate 16 []) }
{
    let mut stripes = Vec::with_capacity(alloc, 16)?;
    for _ in 0..16u32 {
        stripes.push(VecDeque::new(alloc))?;
    }
    Ok(stripes)
}

impl FifoQueue {
    /// A queue without items.
    pub fn new(alloc: Global) -> Result<FifoQueue, AllocError>
        ensures { IfOk result (λ q. q ≡ []) }
    {
        let stripes = empty_stripes(alloc)?;
        Ok(FifoQueue {
            stripes,
            first: 0,
            count: 0,
        })
    }

    /// Serves a batch, and returns the replies in the order of its calls. The queue is dropped when memory runs out.
    ///
    /// A batch has too few calls for a second thread by `threads_for`, so its pieces are one bundle, which is run on the
    /// caller's thread.
    pub fn batch<R: Threads + Sync>(
        self,
        rt: &R,
        alloc: Global,
        calls: &[FifoCall],
    ) -> Result<(FifoQueue, Vec<Reply>), AllocError>
        requires { AreFifoBatch calls.now }
        ensures items { IfOk result (λ p. p.0 ≡ fifo_after self (operations calls.now)) }
        ensures replies { IfOk result (λ p. p.1.items ≡ fifo_replies self (operations calls.now)) }
    {
        let threads = threads_for(calls.len());
        self.batch_in_threads(rt, alloc, calls, threads)
    }

    /// As `batch`, with the pieces shared out among at most `threads` threads.
    pub fn batch_in_threads<R: Threads + Sync>(
        self,
        rt: &R,
        alloc: Global,
        calls: &[FifoCall],
        threads: usize,
    ) -> Result<(FifoQueue, Vec<Reply>), AllocError>
        requires batch { AreFifoBatch calls.now }
        requires some { 0 < threads }
        ensures items { IfOk result (λ p. p.0 ≡ fifo_after self (operations calls.now)) }
        ensures replies { IfOk result (λ p. p.1.items ≡ fifo_replies self (operations calls.now)) }
    {
        self.batch_by(
            alloc,
            calls,
            &|pieces: Vec<Piece>| -> Result<Vec<Served>, AllocError>
                requires { 0 < threads }
                ensures { IfOk result (λ outs. AllMeet Meets pieces.items outs.items) }
            { run_pieces::<R, Piece, Served, StripePieces>(rt, alloc, pieces, threads) },
        )
    }

    /// As `batch`, with the pieces run one after another in the caller's thread.
    pub fn serve(
        self,
        alloc: Global,
        calls: &[FifoCall],
    ) -> Result<(FifoQueue, Vec<Reply>), AllocError>
        requires { AreFifoBatch calls.now }
        ensures items { IfOk result (λ p. p.0 ≡ fifo_after self (operations calls.now)) }
        ensures replies { IfOk result (λ p. p.1.items ≡ fifo_replies self (operations calls.now)) }
    {
        self.batch_by(
            alloc,
            calls,
            &|pieces: Vec<Piece>| -> Result<Vec<Served>, AllocError>
                ensures { IfOk result (λ outs. AllMeet Meets pieces.items outs.items) }
            { run_in_turn::<Piece, Served, StripePieces>(alloc, pieces) },
        )
    }

    /// As `batch`, with the pieces run by `run`.
    fn batch_by<F: Fn(Vec<Piece>) -> Result<Vec<Served>, AllocError>>(
        self,
        alloc: Global,
        calls: &[FifoCall],
        run: &F,
    ) -> Result<(FifoQueue, Vec<Reply>), AllocError>
        requires batch { AreFifoBatch calls.now }
        requires callable { F.IsAlwaysCallable run.now }
        requires meets { (pieces : _) (outs : _) → F.post run.now pieces (Ok outs) → AllMeet Meets pieces.items outs.items }
        ensures items { IfOk result (λ p. p.0 ≡ fifo_after self (operations calls.now)) }
        ensures replies { IfOk result (λ p. p.1.items ≡ fifo_replies self (operations calls.now)) }
    {
        let puts = puts_of(alloc, calls)?;
        let FifoQueue {
            stripes,
            first,
            count,
        } = self;
        if count >= TOO_MANY {
            return Err(AllocError);
        }
        let added = puts.len();
        let gets = calls.len() - added;
        let total = count + added;
        let found = gets.min(total);
        let (stripes, pieces) = cut_pieces(alloc, stripes, first, count, &puts, found)?;
        let outs = run(pieces)?;
        let (stripes, taken) = put_back(alloc, stripes, outs)?;
        let replies = replies_of(alloc, &taken, first, found, added, gets)?;
        let queue = FifoQueue {
            stripes,
            first: (first + found) % 16,
            count: total - found,
        };
        Ok((queue, replies))
    }
}
