//! Programs over jobs that are built in code, to copy from. Each has its theorem in its contract.
//!
//! `adds` makes two additions in threads. `sums` adds the items of a slice on one counter, chunk by chunk, in threads;
//! in `chunks` each leaf adds up a chunk by itself, and in `totals` calls add what such leaves found to one counter. In
//! `interest` a leaf works on the reply of a call, and a later call takes what it finds. `tickets` has customers who
//! draw a ticket each and wait with it in a queue. `grids` builds a large job in loops.
#![tactic(auto)]

pub mod adds;
pub mod chunks;
pub mod grids;
pub mod interest;
pub mod sums;
#[cfg(test)]
mod tests;
pub mod tickets;
pub mod totals;

pub use adds::two_adds_in_threads;
pub use chunks::chunks_in_threads;
pub use grids::grid_job;
pub use interest::balance_in_threads;
pub use sums::sum_in_threads;
pub use tickets::{Service, ticket_job};
pub use totals::total_in_threads;
