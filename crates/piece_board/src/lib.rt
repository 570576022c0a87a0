//! A board that hands out pieces of work to any worker, and hands their results back.
//!
//! Each worker has a desk with its own row of `limits::PLACES` places. It posts a piece at a free place of its row; any
//! desk claims the piece and finishes it with a result; the poster collects this result, which meets the piece that it
//! posted.
//! `rule` is the invariant of a board, and `laws` states its consequences: no post is claimed twice. The kind of work
//! (`work`) is a parameter. The crate depends on `atomic_table`, which maintains the invariant while all threads run.
//! A call changes the word of its place in at most one atomic step. Only `make` allocates, and no call waits.
#![tactic(auto)]

pub mod board;
pub mod laws;
pub mod rule;
pub mod view;
pub mod work;

pub use board::{Board, Claim, Desk};
pub use work::Work;
