//! One worker's two deques, before they are joined with those of the other workers.
ghost use Rattle.std.specs.Prelude.{IfOk};
ghost use Rattle.two_deques.specs.Pairs.{IsNewPair};

use crate::ends::Ends;
use crate::ends::opening::own_deque;
use crate::rule::{DequeRule, Part};
use crate::spot::Spot;
use crossbeam_deque::Stealer;
use std::alloc::{AllocError, Global};

/// How many pushes a deque is guaranteed to take over its lifetime: one of ready nodes (`core`), and one of pieces
/// (`batch`).
#[derive(Clone, Copy)]
pub struct Rooms {
    pub core: u32,
    pub batch: u32,
}

/// What thieves steal from: the shared ends of one worker's two deques. The memory of the deques is given back when
/// these and the worker's hand are dropped, by the thread that drops the last of them.
#[derive(Drop)]
pub struct Stealers {
    pub(crate) core: Stealer<u32, Global, Part<u32>, DequeRule>,
    pub(crate) batch: Stealer<Spot, Global, Part<Spot>, DequeRule>,
}

/// One worker's two deques: the owner's ends, which reach into no deque yet, and the shared ends. It is no worker's in
/// particular, and any thread may make it: `Decks::join` gives it to the worker at whose place it stands.
#[derive(Drop)]
pub struct DeckPair {
    pub(crate) core: Ends<u32>,
    pub(crate) batch: Ends<Spot>,
    pub(crate) stealers: Stealers,
}

impl DeckPair {
    /// Two empty deques with these rooms. A room counts pushes over a deque's life, not tasks in it.
    ///
    /// Memory: proportional to the rooms. All of it is written here.
    pub fn make(alloc: Global, rooms: Rooms) -> Result<DeckPair, AllocError>
        ensures { IfOk result (IsNewPair rooms) }
    {
        let (core, core_stealer) = own_deque::<u32>(alloc, rooms.core as usize)?;
        let (batch, batch_stealer) = own_deque::<Spot>(alloc, rooms.batch as usize)?;
        Ok(DeckPair {
            core,
            batch,
            stealers: Stealers {
                core: core_stealer,
                batch: batch_stealer,
            },
        })
    }
}
