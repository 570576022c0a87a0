//! How a worker without an event looks for a sign of work.
ghost use Rattle.std.specs.Prelude.{◌≡◌, ◌≢◌, ◌<◌, ◌≤◌};
ghost use Rattle.limits.specs.declared.TheConstants.{MOST_WORKERS};
ghost use Rattle.two_deques.specs.Hands.{held};
ghost use Rattle.locked_run.specs.Code.Hints.{AreHintsOf};

use crossbeam_utils::Backoff;
use std::sync::Wait;
use two_deques::{Decks, Hand};

/// A worker's hand, its last victim, and its backoff. At the start the victim is the worker itself.
#[derive(Drop)]
pub(crate) struct WorkHints {
    pub(crate) hand: Hand,
    victim: u32,
    workers: u32,
    backoff: Backoff,
}

/// The next worker, round robin.
fn after(worker: u32, workers: u32) -> u32
    requires { (worker < workers) × (workers ≤ MOST_WORKERS) }
    ensures below { result < workers }
    ensures other { 1 < workers → result ≢ worker }
{
    if worker + 1 < workers { worker + 1 } else { 0 }
}

impl WorkHints {
    /// The hints of a hand, among `workers` workers.
    pub(crate) fn new(hand: Hand, workers: u32) -> WorkHints
        ensures { (result.hand ≡ hand) × (result.victim ≡ (held hand).worker)
            × (result.workers ≡ workers) }
    {
        WorkHints {
            victim: hand.worker(),
            hand,
            workers,
            backoff: Backoff::new(),
        }
    }

    /// The next victim: the next worker, round robin, other than the owner of the hand.
    fn next_victim(&self) -> u32
        requires workers { (1 < self.now.workers) × (self.now.workers ≤ MOST_WORKERS) }
        requires victim { self.now.victim < self.now.workers }
        ensures below { result < self.now.workers }
        ensures other { result ≢ (held self.now.hand).worker }
    {
        let next = after(self.victim, self.workers);
        if next == self.hand.worker() {
            after(next, self.workers)
        } else {
            next
        }
    }

    /// Whether a deque gave a node: the worker's own, or else the next victim's. A single worker does not steal.
    fn finds<R: Wait>(&mut self, rt: &R, decks: &Decks) -> bool
        requires hints { AreHintsOf decks.now self.old }
        ensures hints { AreHintsOf decks.now self.new }
    {
        if decks.pop_core(&mut self.hand).is_some() {
            return true;
        }
        if self.workers < 2 {
            return false;
        }
        self.victim = self.next_victim();
        decks.steal_core(rt, &mut self.hand, self.victim).is_some()
    }

    /// Looks for a node once, and backs off where there is none. A node found is only a sign of work: the core's own
    /// lists decide which node is claimed.
    pub(crate) fn find<R: Wait>(&mut self, rt: &R, decks: &Decks)
        requires hints { AreHintsOf decks.now self.old }
        ensures hints { AreHintsOf decks.now self.new }
    {
        if self.finds(rt, decks) {
            self.backoff.reset();
        } else {
            self.backoff.snooze();
        }
    }

    /// Resets the backoff: the worker had an event, so its next pause is short.
    pub(crate) fn reset_backoff(&self) {
        self.backoff.reset();
    }
}
