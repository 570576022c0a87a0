//! The deques of a run over the running table. A deque's whole room is written when it is made, and given back when it
//! is dropped, so each worker's deques are made and given back in a thread of their own.
ghost use Rattle.std.specs.Prelude.{◌≡◌, ◌≤◌, length, map, All, Ok, IfOk};
ghost use Rattle.limits.specs.declared.TheConstants.{MOST_WORKERS};
ghost use Rattle.two_deques.specs.Hands.{workers_of, core_room_of, batch_room_of, AreHands};
ghost use Rattle.two_deques.specs.Pairs.{IsNewPair};

use std::alloc::{AllocError, Global};
use std::thread;
use std::thread::Threads;
use two_deques::{DeckPair, Decks, Hand, Rooms, Stealers};
use worker_crew::sending::pairs_go_to_threads;

/// The pairs, if there was memory for each of them.
fn all_of(
    alloc: Global,
    made: Vec<Result<DeckPair, AllocError>>,
) -> Result<Vec<DeckPair>, AllocError>
    ensures { IfOk result (λ pairs. made.items ≡ map Ok pairs.items) }
{
    let mut pairs = Vec::with_capacity(alloc, made.len())?;
    for pair in made {
        let pair = pair?;
        pairs.push(pair)?;
    }
    Ok(pairs)
}

/// A new pair of deques for each worker, each made in a thread of its own where one can be started.
fn make_pairs<R: Threads + Sync>(
    rt: &R,
    alloc: Global,
    workers: u32,
    rooms: Rooms,
) -> Result<Vec<DeckPair>, AllocError>
    ensures count { IfOk result (λ pairs. length pairs.items ≡ workers) }
    ensures new { IfOk result (λ pairs. All (IsNewPair rooms) pairs.items) }
{
    pairs_go_to_threads();
    let made = thread::map_indices(
        rt,
        alloc,
        workers as usize,
        &move |_: usize| -> Result<DeckPair, AllocError>
            ensures { IfOk result (IsNewPair rooms) }
        { DeckPair::make(alloc, rooms) },
    )?;
    all_of(alloc, made)
}

/// What `Decks::make` gives, with each worker's deques made in a thread of its own where one can be started.
pub(super) fn make_decks<R: Threads + Sync>(
    rt: &R,
    alloc: Global,
    workers: u32,
    rooms: Rooms,
) -> Result<(Decks, Vec<Hand>), AllocError>
    requires few_workers { workers ≤ MOST_WORKERS }
    ensures workers { IfOk result (λ made. workers_of made.0 ≡ workers) }
    ensures rooms { IfOk result (λ made. (core_room_of made.0 ≡ rooms.core)
        × (batch_room_of made.0 ≡ rooms.batch)) }
    ensures hands { IfOk result (λ made. AreHands made.0 made.1.items) }
{
    let pairs = make_pairs(rt, alloc, workers, rooms)?;
    Decks::join(alloc, rooms, pairs)
}

/// Drops the deques, once their hands are dropped: each worker's in a thread of its own where one can be started. Where
/// memory runs out, this thread drops what is left of them.
pub(super) fn drop_decks<R: Threads + Sync>(rt: &R, alloc: Global, decks: Decks) {
    pairs_go_to_threads();
    let Ok(all) = decks.into_stealers(alloc) else {
        return;
    };
    let _ = thread::map_vec(rt, all, &|stealers: Stealers| drop(stealers));
}
