//! A pipeline: threads put items into one FIFO queue, and take items out of it. Nothing is lost, and what a thread gets of
//! another's items comes in the order in which that one put them.
//!
//! It has two rounds. In the first each thread puts its items and takes what it finds; in the second, when all items
//! are put, it takes what it still lacks. So no thread waits for an item that another has yet to put, and the rounds
//! end even where the system makes no thread and one part runs after another.
ghost use Rattle.std.specs.Prelude.{◌≡◌, ℕ, ◌<◌, ◌≤◌, slice_index_or, false, length, map, sum_by, IfOk};
ghost use Rattle.std.specs.List.{AllByRecursion};
ghost use Rattle.shared_calls.specs.Views.{is_lost};
ghost use Rattle.shared_uses.specs.declared.passing.Part.{Part as PartOf};
ghost use Rattle.shared_uses.specs.Piping.{HasAllRoom, IsReady, HasPassed, IsDone, ArePassedOn};
ghost use Rattle.limits.specs.declared.TheConstants.{MOST_WORKERS};

use crate::passing::{Part, Work, finish, pass};
use shared_calls::Caller;
use shared_collections::{Fifo, SharedFifo};
use std::alloc::{AllocError, Global};
use std::sync::Wait;
use std::thread;
use std::thread::Threads;

/// A part for each caller, with room for what it takes.
fn parts_of(
    alloc: Global,
    callers: Vec<Caller<Fifo>>,
    work: Vec<Work>,
) -> Result<Vec<Part>, AllocError>
    requires { length callers.items ≡ length work.items }
    ensures callers { IfOk result (λ parts. map (λ part. part.caller) parts.items ≡ callers.items) }
    ensures work { IfOk result (λ parts. map (λ part. part.work) parts.items ≡ work.items) }
    ensures room { IfOk result (λ parts. AllByRecursion HasAllRoom parts.items) }
{
    let mut parts = Vec::with_capacity(alloc, work.len())?;
    for (caller, work) in callers.into_iter().zip(work) {
        let taken = Vec::with_capacity(alloc, work.takes)?;
        parts.push(Part {
            caller,
            work,
            taken,
        })?;
    }
    Ok(parts)
}

/// Each part's first round, in a thread of its own.
fn pass_each<R: Wait + Threads + Sync>(rt: &R, queue: &SharedFifo, parts: &mut Vec<Part>)
    requires some { 0 < length parts.old.items }
    requires ready { (i : ℕ) (p : PartOf) → i < length parts.old.items → p ≡ slice_index_or parts.old.items i p → IsReady queue.now i p }
    ensures count { length parts.new.items ≡ length parts.old.items }
    ensures passed { (i : ℕ) (p q : PartOf) → i < length parts.old.items → p ≡ slice_index_or parts.old.items i p → q ≡ slice_index_or parts.new.items i q → HasPassed queue.now i p.work q }
{
    let threads = parts.len();
    thread::for_each_mut(
        rt,
        parts,
        threads,
        &|_: usize, part: &mut Part| pass(rt, queue, part),
    );
}

/// Each part's second round, in a thread of its own.
fn finish_each<R: Wait + Threads + Sync>(rt: &R, queue: &SharedFifo, parts: &mut Vec<Part>)
    requires some { 0 < length parts.old.items }
    requires passed { (i : ℕ) (p : PartOf) → i < length parts.old.items → p ≡ slice_index_or parts.old.items i p → HasPassed queue.now i p.work p }
    ensures count { length parts.new.items ≡ length parts.old.items }
    ensures done { (i : ℕ) (p q : PartOf) → i < length parts.old.items → p ≡ slice_index_or parts.old.items i p → q ≡ slice_index_or parts.new.items i q → IsDone queue.now i p.work q }
{
    let threads = parts.len();
    thread::for_each_mut(
        rt,
        parts,
        threads,
        &|_: usize, part: &mut Part| finish(rt, queue, part),
    );
}

/// The callers, and what each took.
fn apart(alloc: Global, parts: Vec<Part>) -> Result<(Vec<Caller<Fifo>>, Vec<Vec<u32>>), AllocError>
    ensures callers { IfOk result (λ r. map (λ part. part.caller) parts.items ≡ r.0.items) }
    ensures taken { IfOk result (λ r. map (λ part. part.taken) parts.items ≡ r.1.items) }
    ensures sound { IfOk result (λ r. AllByRecursion (λ part. is_lost part.caller ≡ false) parts.items) }
{
    let mut callers = Vec::with_capacity(alloc, parts.len())?;
    let mut all = Vec::with_capacity(alloc, parts.len())?;
    for Part { caller, taken, .. } in parts {
        if caller.is_lost() {
            return Err(AllocError);
        }
        callers.push(caller)?;
        all.push(taken)?;
    }
    Ok((callers, all))
}

/// Passes items on through one queue: each thread puts its items, and takes as many as it shall. Returns what each
/// took, or `AllocError` where memory runs out.
pub fn pass_on<R: Wait + Threads + Sync>(
    rt: &R,
    alloc: Global,
    work: Vec<Work>,
) -> Result<Vec<Vec<u32>>, AllocError>
    requires threads { (1 ≤ length work.items) × (length work.items ≤ MOST_WORKERS) }
    requires even { sum_by (λ w. length w.puts.items) work.items ≡ sum_by (λ w. w.takes) work.items }
    ensures counts { IfOk result (λ taken. map (λ t. length t.items) taken.items ≡ map (λ w. w.takes) work.items) }
    ensures passed { IfOk result (λ taken. ArePassedOn (map (λ w. w.puts.items) work.items) (map (λ t. t.items) taken.items)) }
{
    let (queue, callers) = SharedFifo::new(alloc, work.len())?;
    let mut parts = parts_of(alloc, callers, work)?;
    pass_each(rt, &queue, &mut parts);
    finish_each(rt, &queue, &mut parts);
    let (callers, taken) = apart(alloc, parts)?;
    match queue.close(callers) {
        Some(_) => Ok(taken),
        None => Err(AllocError),
    }
}
