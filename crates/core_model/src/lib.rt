//! The model of the scheduler's core: its state, its events, and the invariant of every reachable state.
//!
//! `specs/` defines the rules by which workers share the nodes of a job and gather their calls into batches, over plain
//! mathematical states, together with their invariant. `laws` states the theorems about all runs. `setting` holds a job
//! with its plan and the number of workers, `next` tells the next act of a worker from its task and its call, and
//! `empty` has the report of a job that needs no run. The crates above implement the stored state of a core and the
//! table that threads share, and prove that both follow these rules. The nodes of a job come from `sp_order`, the book
//! from `batch_history`, and acts, operations and replies from `seq_objects`.
#![tactic(auto)]

mod empty;
pub mod event;
pub mod laws;
pub mod next;
pub mod progress;
pub mod setting;
pub mod status;
pub mod task;

pub use empty::report_of_empty;
pub use event::Event;
pub use next::Next;
pub use progress::Progress;
pub use setting::Setting;
pub use status::{CallState, Receipt, Status};
pub use task::Task;
