//! The pauses, by the points at which the workers meet.

use crate::meeting::Meeting;
use run_points::{Pause, Point};
use std::sync::atomic::{AtomicU64, Ordering};

/// The workers meet where each has started its first leaf.
#[derive(Drop)]
pub struct AtStarts {
    pub starts: Meeting,
}

impl Pause for AtStarts {
    fn at(&self, point: Point, worker: u32) {
        if let Point::LeafStart(_) = point {
            self.starts.meet(worker);
        }
    }
}

/// The workers meet where each has posted its first call.
#[derive(Drop)]
pub struct AtPosts {
    pub posts: Meeting,
}

impl Pause for AtPosts {
    fn at(&self, point: Point, worker: u32) {
        if let Point::Posted(_) = point {
            self.posts.meet(worker);
        }
    }
}

/// The workers meet where each has posted its first call, and again where each is about to run its first piece. The
/// pause records the places of the first batch's pieces.
#[derive(Drop)]
pub struct AtCalls {
    pub posts: Meeting,
    pub pieces: Meeting,
    /// How often the flag was won.
    wins: AtomicU64,
    /// Bit p is set once a worker has come to a piece of the first batch at place p.
    places: AtomicU64,
}

impl AtCalls {
    /// A pause to which nobody has come.
    pub fn new() -> AtCalls {
        AtCalls {
            posts: Meeting::new(),
            pieces: Meeting::new(),
            wins: AtomicU64::new(0),
            places: AtomicU64::new(0),
        }
    }

    /// At how many places the first batch had a piece. The count is of the places to which a worker came while the flag
    /// had been won once. Where the posts were kept, that win had both calls to take. All pieces of a batch have run
    /// before its launcher lets go of the flag.
    pub fn first_batch_places(&self) -> u32 {
        self.places.load(Ordering::SeqCst).count_ones()
    }
}

impl Pause for AtCalls {
    fn at(&self, point: Point, worker: u32) {
        match point {
            Point::LeafStart(_) => {}
            Point::Posted(_) => self.posts.meet(worker),
            Point::Won => {
                self.wins.fetch_add(1, Ordering::SeqCst);
            }
            Point::PieceStart(place) => {
                if self.wins.load(Ordering::SeqCst) == 1 {
                    self.places
                        .fetch_or(1 << u64::from(place % 64), Ordering::SeqCst);
                }
                self.pieces.meet(worker);
            }
        }
    }
}

/// The workers meet where each is about to run its first piece.
#[derive(Drop)]
pub struct AtPieces {
    pub pieces: Meeting,
}

impl Pause for AtPieces {
    fn at(&self, point: Point, worker: u32) {
        if let Point::PieceStart(_) = point {
            self.pieces.meet(worker);
        }
    }
}

/// The second worker to start a leaf is held until the first has posted a call and won the flag, and the winner is held
/// until the second has posted too. So that call is posted while a launcher is at work and no batch is published.
#[derive(Drop)]
pub struct AtWin {
    /// How many leaves have started, and which was the second.
    starts: AtomicU64,
    second: AtomicU64,
    pub wins: Meeting,
    pub posts: Meeting,
}

impl AtWin {
    /// A pause to which nobody has come.
    pub fn new() -> AtWin {
        AtWin {
            starts: AtomicU64::new(0),
            second: AtomicU64::new(0),
            wins: Meeting::new(),
            posts: Meeting::new(),
        }
    }

    /// The leaf that started second.
    pub fn second_leaf(&self) -> u64 {
        self.second.load(Ordering::SeqCst)
    }
}

impl Pause for AtWin {
    fn at(&self, point: Point, worker: u32) {
        match point {
            Point::LeafStart(leaf) => {
                if self.starts.fetch_add(1, Ordering::SeqCst) == 1 {
                    self.second.store(u64::from(leaf), Ordering::SeqCst);
                    self.wins.wait_for(1);
                }
            }
            Point::Posted(_) => self.posts.come(worker),
            Point::Won => {
                self.wins.come(worker);
                self.posts.wait_for(2);
            }
            Point::PieceStart(_) => {}
        }
    }
}
