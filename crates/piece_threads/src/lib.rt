//! Pieces of a batch, run in threads where there is work for several.
//!
//! A structure that serves a batch in pieces says by `Pieces` what a piece owes. `run_pieces` answers one out for each
//! in, in their order, and each out meets its in, in however many threads they are made. Std's parallel `map_vec` runs
//! the pieces in bundles of consecutive ones, one thread a bundle, and none where there is one bundle. `threads_for` gives
//! one more thread for each 2,048 keys that a batch handles. Every thread is joined, and the caller runs a bundle whose
//! thread cannot be started. The crate stands on `seq_objects`, whose `AllMeet` ties outs to ins.
#![tactic(auto)]

mod bundles;
mod pieces;
mod run;

pub use pieces::{Pieces, run_in_turn};
pub use run::{run_pieces, threads_for};
