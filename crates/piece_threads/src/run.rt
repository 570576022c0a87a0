//! Pieces that are run in threads, and how many threads they are worth.
ghost use Rattle.std.specs.Prelude.{◌≡◌, ◌<◌, ℕ, length, slice_index_or, IfOk};
ghost use Rattle.seq_objects.specs.Pieces.{AllMeet};
ghost use Rattle.piece_threads.specs.Threads.{threads_for};

use crate::bundles::{bundles_of, join_outs};
use crate::pieces::{Pieces, run_in_turn};
use std::alloc::{AllocError, Global};
use std::thread;
use std::thread::Threads;

/// The most threads that one batch is worth.
const MOST_THREADS: usize = 16;

/// The number of keys that pay for one more thread.
const KEYS_A_THREAD: usize = 2048;

/// In how many threads the pieces of a batch are worth running, where `keys` is how many keys or items all its pieces
/// handle: 1 below 2,048 keys, and at most 16.
pub fn threads_for(keys: usize) -> usize
    ensures count { result ≡ threads_for keys }
    ensures some { 0 < result }
{
    (1 + keys / KEYS_A_THREAD).min(MOST_THREADS)
}

/// Runs bundles of pieces by std's parallel map: where there are several, each in a thread of its own if it can be
/// started.
fn run_bundles<R: Threads + Sync, I: Send + Drop, O: Send + Drop, P: Pieces<I, O> + Send + Sync>(
    rt: &R,
    alloc: Global,
    bundles: Vec<Vec<I>>,
) -> Result<Vec<Result<Vec<O>, AllocError>>, AllocError>
    ensures count { IfOk result (λ results. length results.items ≡ length bundles.items) }
    ensures each { IfOk result (λ results. (i : ℕ) (b : _) (r : _) → i < length bundles.items
        → b ≡ slice_index_or bundles.items i b → r ≡ slice_index_or results.items i r
        → IfOk r (λ outs. AllMeet P.meets b.items outs.items)) }
{
    thread::map_vec(
        rt,
        bundles,
        &|bundle: Vec<I>| -> Result<Vec<O>, AllocError>
            ensures { IfOk result (λ outs. AllMeet P.meets bundle.items outs.items) }
        { run_in_turn::<I, O, P>(alloc, bundle) },
    )
}

/// Works on pieces in at most `threads` bundles of consecutive ones, by std's parallel map where there are two pieces or
/// more. One bundle starts no thread: it is worked on in the caller's.
pub fn run_pieces<R: Threads + Sync, I: Send + Drop, O: Send + Drop, P: Pieces<I, O> + Send + Sync>(
    rt: &R,
    alloc: Global,
    ins: Vec<I>,
    threads: usize,
) -> Result<Vec<O>, AllocError>
    requires { 0 < threads }
    ensures { IfOk result (λ outs. AllMeet P.meets ins.items outs.items) }
{
    if ins.len() <= 1 {
        return run_in_turn::<I, O, P>(alloc, ins);
    }
    let size = ins.len().div_ceil(threads);
    let bundles = bundles_of(alloc, ins, size)?;
    let results = run_bundles::<R, I, O, P>(rt, alloc, bundles)?;
    join_outs(alloc, results)
}
