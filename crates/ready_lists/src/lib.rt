//! The lists of ready nodes of the workers of a core by turns, from which they claim.
//!
//! A worker appends the nodes that it makes ready at the newest end of its own list. A node is removed at an end of the
//! list that has it: by its worker at the newest, and by the others at the oldest. `list` is the list of one worker, and
//! `lists` those of all. Contracts see them as lists of nodes, the oldest first; `specs/Ends` says where a claimed node
//! stands, and `specs/Places` reads a list as a function of places. `core_model` says what an event does to the lists,
//! and `core_state` stores them.
#![tactic(auto)]

mod list;
pub mod lists;

pub use lists::ReadyLists;
