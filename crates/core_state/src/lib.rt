//! The state that a core stores, and what one turn does to it.
//!
//! `specs/Abstraction` is the refinement mapping to the model's state. `choose` picks the event of a worker's turn
//! exactly as the model does, and writes nothing. `apply` performs an event whose needs are met. `doing` says what a
//! worker is doing. `hold` is the hold of the flag's owner, a part of a state that stands alone; the lists of ready
//! nodes are those of `ready_lists`. `batcher_core` builds on this crate. The rules are in `core_model`, and
//! `launch_batch` serves a batch; `sp_order`, `batch_history` and `seq_objects` supply jobs, books and operations.
#![tactic(auto)]

mod apply;
mod choose;
pub mod doing;
pub mod hold;
pub mod state;

pub use doing::Doing;
pub use hold::Hold;
pub use state::{State, history_of};
