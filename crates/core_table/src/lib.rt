//! The running table: the state of the scheduler's core as shared atomic words and slots. A step changes one word.
//!
//! `table_rule` says which state the words and slots show, and what each kind of step makes of it. Each call with a
//! pass makes one such step, so it is one event of the core or a stutter, and its step is the linearization point;
//! `publish` looks at the batch count before its step. No call takes a lock or waits. `atomic_table` provides the
//! words, slots and seats; `launch_batch` and `batch_history` the shop and the book, in two slots; `core_model` the
//! events and laws; `sp_order` the plan; `seq_objects` the acts.
#![tactic(auto)]

mod calls;
mod close;
mod due;
pub mod laws;
mod make;
mod nodes;
mod rotation;
mod sending;
mod table;

pub use table::{CoreTable, Pass};
