//! Proved programs over structures that threads share, each short, to copy from. `tickets` draws from a counter,
//! `sums` adds up a slice, `keys` counts distinct keys by a set, and `pipes` passes items on through a queue.
#![tactic(auto)]

pub mod keys;
mod passing;
pub mod pipes;
pub mod sums;
pub mod tickets;

pub use keys::count_distinct;
pub use passing::{Part, Work};
pub use pipes::pass_on;
pub use sums::sum_in_threads;
pub use tickets::draw_in_threads;
