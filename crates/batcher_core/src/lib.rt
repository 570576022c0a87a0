//! The core of the scheduler on one thread: a job with its state, and the run by turns.
//!
//! `drive` takes turns until the root is done, and `report` makes the rows of the report. `run_by_turns_with` runs a job
//! whose leaves of work run a function of the caller's. The rules and the laws of all runs are in `core_model`, and the
//! state and its turns in `core_state`. The crate also builds on `launch_batch`, whose shop is part of the state, on
//! `leaf_work`, which says what leaves of work compute, and on `sp_order`, `batch_history` and `seq_objects` for nodes,
//! books and operations.
#![tactic(auto)]

pub mod driver;
mod report;
pub mod scheduler;
pub mod spun;
pub mod stopped;
pub mod turn;
pub mod turns;

pub use core_model::{CallState, Event, Progress, Receipt, Status, Task};
pub use core_state::Doing;
pub use driver::{drive, drive_with};
pub use scheduler::{Core, CoreWith};
pub use spun::{Spun, SpunWith};
pub use stopped::{Ended, drive_some};
pub use turn::Turn;
pub use turns::run_by_turns_with;
