//! The state of one worker (`Me`) and the state that all workers share (`Crew`).
ghost use Rattle.std.specs.Prelude.{◌≡◌, ◌*◌, ◌<◌, ◌≤◌};
ghost use Rattle.limits.specs.declared.TheConstants.{MOST_WORKERS};
ghost use Rattle.core_table.specs.Passes.{job_in};
ghost use Rattle.two_deques.specs.Hands.{workers_of};
ghost use Rattle.piece_board.specs.Boards.{workers_of as rows_of};
ghost use Rattle.worker_crew.specs.declared.crew.Stop.TheVariants.{Memory};

mod opening;

use crate::batch_pieces::BatchPieces;
use core_table::{CoreTable, Pass};
use leaf_work::{BrandedWork, LeafWork, WorkBrand};
pub use opening::{PUSHES_A_CALL, deck_rooms};
use piece_board::{Board, Desk};
use std::alloc::{AllocError, AllocFailed};
use two_deques::{Decks, Hand, Tries};

/// What all workers share: the table, the deques, the board, the number of workers, where a test may hold them
/// (`run_points::Pause`), and what their leaves of work run. `B` says what that computes.
#[derive(Drop)]
pub struct Crew<'a, G, B: WorkBrand, W: LeafWork> {
    pub table: CoreTable<B>,
    pub decks: Decks,
    pub board: Board<BatchPieces>,
    pub workers: u32,
    pub pause: &'a G,
    pub work: BrandedWork<'a, B, W>,
    pub ghost job: { workers ≡ (job_in table).workers },
    pub ghost few: { (0 < workers) × (workers ≤ MOST_WORKERS) },
    pub ghost each: { (workers ≡ workers_of decks) × (workers ≡ rows_of board) },
}

/// What one worker owns: its pass to the table, its hand of deque ends, its desk at the board, and its choice of steal
/// victims.
#[derive(Drop)]
pub struct Me {
    pub pass: Pass,
    pub hand: Hand,
    pub desk: Desk<BatchPieces>,
    pub tries: Tries,
}

/// Why a turn ends without an answer. The worker then takes no further turn.
#[derive(Clone, Copy)]
pub enum Stop {
    /// Memory ran out, or a deque refused a push.
    Memory,
    /// The worker found the stop word set.
    Stopped,
}

impl From<AllocError> for Stop {
    ghost from_gives = { λ _ e. e ≡ Memory };

    fn from(_error: AllocError) -> Stop {
        Stop::Memory
    }
}

impl<T: Drop> From<AllocFailed<T>> for Stop {
    ghost from_gives = { λ _ e. e ≡ Memory };

    fn from(_error: AllocFailed<T>) -> Stop {
        Stop::Memory
    }
}
