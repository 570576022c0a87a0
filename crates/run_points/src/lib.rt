//! The points at which a worker of a run in threads may be held: the start (`start_barrier`), and the points of its
//! turns (`pause`), where a test holds it to steer the interleaving of the run.
//!
//! Nothing is proved of them but that each call is safe: a run promises the same wherever its workers are held.
#![tactic(auto)]

mod pause;
mod start_barrier;

pub use pause::{NoPause, Pause, Point};
pub use start_barrier::wait_for_others;
