//! A place at which two workers meet.

use std::sync::atomic::{AtomicU64, Ordering};
use std::thread;

/// How often a worker that is held looks.
const MOST_LOOKS: u32 = 100_000_000;

/// A point to which two workers come. Who waits there and is let go in vain is counted.
#[derive(Drop)]
pub struct Meeting {
    /// Bit w is set once worker w has come.
    came: AtomicU64,
    missed: AtomicU64,
}

impl Meeting {
    /// A point to which nobody has come.
    pub fn new() -> Meeting {
        Meeting {
            came: AtomicU64::new(0),
            missed: AtomicU64::new(0),
        }
    }

    /// How many have come.
    pub fn count(&self) -> u32 {
        self.came.load(Ordering::SeqCst).count_ones()
    }

    /// Worker 0 or 1 comes.
    pub fn come(&self, worker: u32) {
        self.came
            .fetch_or(1 << u64::from(worker % 2), Ordering::SeqCst);
    }

    /// Holds the caller until so many have come.
    pub fn wait_for(&self, count: u32) {
        for _ in 0..MOST_LOOKS {
            if self.count() >= count {
                return;
            }
            thread::yield_now();
        }
        self.missed.fetch_add(1, Ordering::SeqCst);
    }

    /// Worker 0 or 1 comes, and is held until the other one has come too.
    pub fn meet(&self, worker: u32) {
        self.come(worker);
        self.wait_for(2);
    }

    /// How often somebody was let go in vain.
    pub fn missed(&self) -> u64 {
        self.missed.load(Ordering::SeqCst)
    }

    /// Whether both came, and nobody was let go in vain.
    pub fn was_kept(&self) -> bool {
        self.count() == 2 && self.missed() == 0
    }
}
