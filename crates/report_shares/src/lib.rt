//! The shares of a report's workers: all ticks are cut into columns of equal width, and for each worker and each column
//! it is counted how many ticks the worker's leaves work and how many they call.
//!
//! `shares` counts them for rows and a book that need not be lawful. `laws` states that the columns take each tick
//! once, that a worker of a lawful report never does more than a column has ticks, and that all shares together are
//! what all rows last. The crate builds on `batch_history`, which defines rows and books, and on `sp_order` and
//! `seq_objects` for what a lawful report is.
#![tactic(auto)]

mod callers;
mod counting;
mod lane;
pub mod laws;
mod share;
mod ticks;

pub use counting::shares;
pub use share::Share;
pub use ticks::width_of;
