//! The making of the deques, and the operations on them.
ghost use Rattle.std.specs.Prelude.{◌≡◌, ◌≢◌, ◌<◌, ◌≤◌, length, All, IfOk, IfErr, IfNone, IfSome, OnOk};
ghost use Rattle.limits.specs.declared.TheConstants.{MOST_WORKERS};
ghost use Rattle.two_deques.specs.Ends.{after_push, with_newest, after_empty_pop, after_steal};
ghost use Rattle.two_deques.specs.Ends.{after_failed_steal, WasEmpty, HadAtMostOne};
ghost use Rattle.two_deques.specs.Hands.{held, workers_of, core_room_of, batch_room_of};
ghost use Rattle.two_deques.specs.Hands.{IsHandOf, AreHands};
ghost use Rattle.two_deques.specs.Pairs.{IsNewPair, AreDecksOf, AreStealersOf};

use crate::decks::Decks;
use crate::decks::opening::{apart, hands_of};
use crate::ends::opening::with_reaches;
use crate::hand::Hand;
use crate::pair::{DeckPair, Rooms, Stealers};
use crate::spot::Spot;
use std::alloc::{AllocError, Global};
use std::sync::Wait;

impl Decks {
    /// Empty deques for `workers` workers, and their hands. A room counts pushes over a deque's life, not tasks in it.
    pub fn make(
        alloc: Global,
        workers: u32,
        core_room: u32,
        batch_room: u32,
    ) -> Result<(Decks, Vec<Hand>), AllocError>
        requires workers { (1 ≤ workers) × (workers ≤ MOST_WORKERS) }
        requires rooms { (core_room ≤ 160000) × (batch_room ≤ 160000) }
        ensures workers { IfOk result (λ made. workers_of made.0 ≡ workers) }
        ensures rooms { IfOk result (λ made. (core_room_of made.0 ≡ core_room)
            × (batch_room_of made.0 ≡ batch_room)) }
        ensures hands { IfOk result (λ made. AreHands made.0 made.1.items) }
    {
        let rooms = Rooms {
            core: core_room,
            batch: batch_room,
        };
        let mut pairs = Vec::with_capacity(alloc, workers as usize)?;
        for _ in 0..workers {
            pairs.push(DeckPair::make(alloc, rooms)?)?;
        }
        Decks::join(alloc, rooms, pairs)
    }

    /// Joins pairs of new deques with these rooms, one for each worker, in the order of the workers: the deques, and
    /// the workers' hands.
    ///
    /// Memory: a few words for each worker's reach into each deque.
    pub fn join(
        alloc: Global,
        rooms: Rooms,
        pairs: Vec<DeckPair>,
    ) -> Result<(Decks, Vec<Hand>), AllocError>
        requires workers { length pairs.items ≤ MOST_WORKERS }
        requires pairs { All (IsNewPair rooms) pairs.items }
        ensures workers { IfOk result (λ made. workers_of made.0 ≡ length pairs.items) }
        ensures rooms { IfOk result (λ made. (core_room_of made.0 ≡ rooms.core)
            × (batch_room_of made.0 ≡ rooms.batch)) }
        ensures pairs { IfOk result (λ made. AreDecksOf pairs.items made.0) }
        ensures hands { IfOk result (λ made. AreHands made.0 made.1.items) }
    {
        let (decks, core, batch) = apart(alloc, rooms, pairs)?;
        let core_ends = with_reaches(alloc, &decks.core, core)?;
        let batch_ends = with_reaches(alloc, &decks.batch, batch)?;
        let hands = hands_of(alloc, &decks, core_ends, batch_ends)?;
        Ok((decks, hands))
    }

    /// What thieves steal from, of each worker, in the order of the workers. The memory of a worker's deques is given
    /// back where these and its hand are dropped, so each worker's can be given back by another thread.
    ///
    /// Memory: a few words for each worker.
    pub fn into_stealers(self, alloc: Global) -> Result<Vec<Stealers>, AllocError>
        ensures { IfOk result (λ all. AreStealersOf self all.items) }
    {
        let Decks {
            core,
            batch,
            core_room: _,
            batch_room: _,
        } = self;
        let mut all = Vec::with_capacity(alloc, core.len())?;
        for (nodes, pieces) in core.into_iter().zip(batch) {
            all.push(Stealers {
                core: nodes,
                batch: pieces,
            })?;
        }
        Ok(all)
    }

    /// Pushes a node on the worker's own deque. A deque that is full and cannot grow returns the node.
    pub fn push_core(&self, hand: &mut Hand, node: u32) -> Result<(), u32>
        requires hand { IsHandOf self.now hand.old }
        ensures hand { IsHandOf self.now hand.new }
        ensures ok { OnOk result (held hand.new
            ≡ record (held hand.old) { core = after_push node (held hand.old).core }) }
        ensures err { IfErr result (λ back. (back ≡ node) × (held hand.new ≡ held hand.old)) }
        ensures cause { IfErr result (λ _. core_room_of self.now ≤ (held hand.old).core.pushes) }
    {
        hand.core.push(node)
    }

    /// Pops the newest node of the worker's own deque.
    ///
    /// `cause` passes on the promise of `crossbeam_deque` that a pop finds nothing only if the deque was empty at
    /// some moment of the call. A clause cannot name a state within a call, so `cause` states that the rule admits
    /// an empty deque whose owner has this hand's list.
    ///
    /// Memory: none.
    pub fn pop_core(&self, hand: &mut Hand) -> Option<u32>
        requires hand { IsHandOf self.now hand.old }
        ensures hand { IsHandOf self.now hand.new }
        ensures some { IfSome result (λ node. held hand.old
            ≡ record (held hand.new) { core = with_newest node (held hand.new).core }) }
        ensures none { IfNone result (held hand.new
            ≡ record (held hand.old) { core = after_empty_pop (held hand.old).core }) }
        ensures cause { IfNone result (WasEmpty (held hand.old).core) }
    {
        hand.core.pop()
    }

    /// Steals the oldest node of another worker's deque. It retries as long as the deque asks for it, so it may
    /// wait for other thieves.
    ///
    /// `cause` passes on the promise of `crossbeam_deque` that a steal finds nothing only if the deque had at most
    /// one task at some moment of the call; its owner may be about to pop that task. Its form is explained at
    /// `pop_core`.
    ///
    /// Memory: none.
    pub fn steal_core<R: Wait>(&self, rt: &R, hand: &mut Hand, victim: u32) -> Option<u32>
        requires hand { IsHandOf self.now hand.old }
        requires victim { (victim < workers_of self.now) × (victim ≢ (held hand.old).worker) }
        ensures hand { IsHandOf self.now hand.new }
        ensures some { IfSome result (λ node. held hand.new
            ≡ record (held hand.old) { core = after_steal victim node (held hand.old).core }) }
        ensures none { IfNone result (held hand.new
            ≡ record (held hand.old) { core = after_failed_steal victim (held hand.old).core }) }
        ensures cause { IfNone result (HadAtMostOne victim (held hand.old).core) }
    {
        let victim = victim as usize;
        hand.core.steal(rt, &self.core, victim)
    }

    /// Pushes the spot of a piece on the worker's own deque of pieces. A deque that is full and cannot grow returns
    /// the spot.
    ///
    /// Memory: the deque may grow, by the allocator that it stores.
    pub fn push_piece(&self, hand: &mut Hand, spot: Spot) -> Result<(), Spot>
        requires hand { IsHandOf self.now hand.old }
        ensures hand { IsHandOf self.now hand.new }
        ensures ok { OnOk result (held hand.new
            ≡ record (held hand.old) { batch = after_push spot (held hand.old).batch }) }
        ensures err { IfErr result (λ back. (back ≡ spot) × (held hand.new ≡ held hand.old)) }
        ensures cause { IfErr result (λ _. batch_room_of self.now ≤ (held hand.old).batch.pushes) }
    {
        hand.batch.push(spot)
    }

    /// Pops the newest spot of the worker's own deque of pieces. For `cause` see `pop_core`.
    ///
    /// Memory: none.
    pub fn pop_piece(&self, hand: &mut Hand) -> Option<Spot>
        requires hand { IsHandOf self.now hand.old }
        ensures hand { IsHandOf self.now hand.new }
        ensures some { IfSome result (λ spot. held hand.old
            ≡ record (held hand.new) { batch = with_newest spot (held hand.new).batch }) }
        ensures none { IfNone result (held hand.new
            ≡ record (held hand.old) { batch = after_empty_pop (held hand.old).batch }) }
        ensures cause { IfNone result (WasEmpty (held hand.old).batch) }
    {
        hand.batch.pop()
    }

    /// Steals the oldest spot of another worker's deque of pieces. It retries as long as the deque asks for it, so
    /// it may wait for other thieves. For `cause` see `steal_core`.
    ///
    /// Memory: none.
    pub fn steal_piece<R: Wait>(&self, rt: &R, hand: &mut Hand, victim: u32) -> Option<Spot>
        requires hand { IsHandOf self.now hand.old }
        requires victim { (victim < workers_of self.now) × (victim ≢ (held hand.old).worker) }
        ensures hand { IsHandOf self.now hand.new }
        ensures some { IfSome result (λ spot. held hand.new
            ≡ record (held hand.old) { batch = after_steal victim spot (held hand.old).batch }) }
        ensures none { IfNone result (held hand.new
            ≡ record (held hand.old) { batch = after_failed_steal victim (held hand.old).batch }) }
        ensures cause { IfNone result (HadAtMostOne victim (held hand.old).batch) }
    {
        let victim = victim as usize;
        hand.batch.steal(rt, &self.batch, victim)
    }
}
