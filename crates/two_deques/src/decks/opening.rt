//! The deques of all workers and the initial hands, from the workers' pairs of deques.
ghost use Rattle.std.specs.Prelude.{◌≡◌, ◌≤◌, length, All, IfOk};
ghost use Rattle.limits.specs.declared.TheConstants.{MOST_WORKERS};
ghost use Rattle.two_deques.specs.Hands.{workers_of, core_room_of, batch_room_of, AreHands};
ghost use Rattle.two_deques.specs.Pairs.{IsNewPair, AreDecksOf};
ghost use Rattle.two_deques.specs.Code.Opening.{AreMade};

use crate::decks::Decks;
use crate::ends::Ends;
use crate::hand::Hand;
use crate::pair::{DeckPair, Rooms, Stealers};
use crate::spot::Spot;
use std::alloc::{AllocError, Global};

/// Takes pairs of new deques apart, in their order: into the deques, and their owners' ends of both kinds, which reach
/// into no deque yet.
pub(crate) fn apart(
    alloc: Global,
    rooms: Rooms,
    pairs: Vec<DeckPair>,
) -> Result<(Decks, Vec<Ends<u32>>, Vec<Ends<Spot>>), AllocError>
    requires pairs { All (IsNewPair rooms) pairs.items }
    ensures rooms { IfOk result (λ r. (core_room_of r.0 ≡ rooms.core) × (batch_room_of r.0 ≡ rooms.batch)) }
    ensures decks { IfOk result (λ r. AreDecksOf pairs.items r.0) }
    ensures core { IfOk result (λ r. AreMade 0 (length pairs.items) rooms.core
        r.0.core.items r.1.items) }
    ensures batch { IfOk result (λ r. AreMade 0 (length pairs.items) rooms.batch
        r.0.batch.items r.2.items) }
{
    let mut core = Vec::with_capacity(alloc, pairs.len())?;
    let mut batch = Vec::with_capacity(alloc, pairs.len())?;
    let mut core_ends = Vec::with_capacity(alloc, pairs.len())?;
    let mut batch_ends = Vec::with_capacity(alloc, pairs.len())?;
    for pair in pairs {
        let DeckPair {
            core: own_core,
            batch: own_batch,
            stealers,
        } = pair;
        let Stealers {
            core: core_stealer,
            batch: batch_stealer,
        } = stealers;
        core.push(core_stealer)?;
        batch.push(batch_stealer)?;
        core_ends.push(own_core)?;
        batch_ends.push(own_batch)?;
    }
    let decks = Decks {
        core,
        batch,
        core_room: rooms.core,
        batch_room: rooms.batch,
    };
    Ok((decks, core_ends, batch_ends))
}

/// Pairs each worker's ends of both kinds into its hand.
pub(crate) fn hands_of(
    alloc: Global,
    decks: &Decks,
    core: Vec<Ends<u32>>,
    batch: Vec<Ends<Spot>>,
) -> Result<Vec<Hand>, AllocError>
    requires core { AreMade (workers_of decks.now) (workers_of decks.now) (core_room_of decks.now)
        decks.now.core.items core.items }
    requires batch { AreMade (workers_of decks.now) (workers_of decks.now) (batch_room_of decks.now)
        decks.now.batch.items batch.items }
    requires few { workers_of decks.now ≤ MOST_WORKERS }
    ensures { IfOk result (λ hands. AreHands decks.now hands.items) }
{
    let mut hands = Vec::new(alloc);
    let mut core = core;
    let mut batch = batch;
    for worker in 0..decks.core.len() {
        hands.push(Hand {
            worker: worker as u32,
            core: core.remove(0),
            batch: batch.remove(0),
        })?;
    }
    Ok(hands)
}
