//! The crew of a run: what each worker owns, and what all workers share.
//!
//! A worker owns its pass, its hand, its desk and its tries; all workers share the running table, the deques and the
//! board (`crew`). `crew` also makes the workers of a job, on deques that it makes itself or that the caller made, and
//! `sending` shows that they can move to threads. `batch_pieces` makes the pieces of a batch the board's work. The crate
//! builds on `two_deques`, `piece_board`, `launch_batch` and `core_table`; `worker_turns` builds on it.
#![tactic(auto)]

pub mod batch_pieces;
pub mod crew;
pub mod laws;
pub mod sending;

pub use batch_pieces::BatchPieces;
pub use crew::{Crew, Me, PUSHES_A_CALL, Stop, deck_rooms};
