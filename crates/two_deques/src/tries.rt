//! The round-robin choice of steal victims.
ghost use Rattle.std.specs.Prelude.{◌≡◌, ◌≢◌, ◌<◌, ◌≤◌, ◌↔◌, IfSome, IfNone, IsNone};
ghost use Rattle.limits.specs.declared.TheConstants.{MOST_WORKERS};
ghost use Rattle.two_deques.specs.Tries.{first_tries, try_of, after_try};

use std::marker::Model;

/// One of a worker's two deques: that of ready nodes (`CoreDeck`) or that of pieces of batches (`BatchDeck`).
#[derive(Clone, Copy)]
pub enum Deck {
    CoreDeck,
    BatchDeck,
}

/// A steal to attempt: the victim, and which of its deques.
#[derive(Clone, Copy)]
pub struct Try {
    pub deck: Deck,
    pub victim: u32,
}

/// A worker's cycle through the other workers, from its successor on: at each, first the deque of nodes and then
/// that of pieces. Contracts see it as a `TriesView`.
#[derive(Drop)]
pub struct Tries {
    worker: u32,
    workers: u32,
    next: u32,
}

impl Model for Tries {
    ghost use Rattle.std.specs.Prelude.{◌<◌, ◌≤◌, ◌*◌, ◌-◌};
    ghost use Rattle.limits.specs.declared.TheConstants.{MOST_WORKERS};
    ghost use Rattle.two_deques.specs.Tries.{TriesView};

    ghost Value = { TriesView };

    ghost view = { λ t. record { worker = t.worker; workers = t.workers; next = t.next } };

    ghost invariant = { λ t. (t.worker < t.workers) × (t.workers ≤ MOST_WORKERS)
        × (1 < t.workers → t.next < 2 * (t.workers - 1)) };
}

impl Tries {
    /// The tries of worker `me` among `workers` workers.
    ///
    /// Memory: none.
    pub fn new(me: u32, workers: u32) -> Tries
        requires workers { (1 ≤ workers) × (workers ≤ MOST_WORKERS) }
        requires me { me < workers }
        ensures { result ≡ first_tries me workers }
    {
        Tries {
            worker: me,
            workers,
            next: 0,
        }
    }

    /// The next try, or `None` if there is no other worker.
    ///
    /// Memory: none.
    pub fn next_try(&mut self) -> Option<Try>
        ensures some { IfSome result (λ t. (t ≡ try_of self.old) × (self.new ≡ after_try self.old)) }
        ensures another { IfSome result (λ t.
            (t.victim < self.old.workers) × (t.victim ≢ self.old.worker)) }
        ensures none { IfNone result (self.new ≡ self.old) }
        ensures cause { IsNone result ↔ (self.old.workers ≡ 1) }
    {
        if self.workers == 1 {
            return None;
        }
        let deck = if self.next % 2 == 0 {
            Deck::CoreDeck
        } else {
            Deck::BatchDeck
        };
        let victim = (self.worker + 1 + self.next / 2) % self.workers;
        self.next = (self.next + 1) % (2 * (self.workers - 1));
        Some(Try { deck, victim })
    }
}
