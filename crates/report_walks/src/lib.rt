//! Walks over a report: one or two for each part of what makes it lawful for a job.
//!
//! Each part of `Lawful` is decided exactly, where the parts before it hold: rows, order, calls, replies, ticks,
//! batches and values; the calls and the values for jobs whose leaves take replies alone. No walk compares all pairs of
//! leaves or of calls, and what a walk keeps has the size of the job, whatever the report says. The crate builds on
//! `batch_history`, which defines the parts, on `sp_order` for jobs, and on `seq_objects` for the serial objects.
#![tactic(auto)]

mod batches;
mod calls;
mod order;
mod replies;
mod rows;
mod steps;
mod ticks;
mod values;

pub use batches::are_batches;
pub use calls::has_calls;
pub use order::keeps_order;
pub use replies::are_legal;
pub use rows::has_rows;
pub use ticks::keeps_ticks;
pub use values::has_values;
