//! A structure that threads share without a lock, and call as if each call stood alone, by combining.
//!
//! A caller posts its call in a slot of its own. A caller that finds the flag free takes the structure and all calls
//! that are posted, serves them as one batch, and answers them; the others wait for their replies. Any structure that
//! serves a batch as if its calls came one after another can be shared so (`combined`). `rule` is the invariant of a
//! shared structure, with a list of all calls in the order in which they were served, and `steps` has the steps of a
//! call, each of which keeps it. The crate depends on `atomic_table`, which maintains the invariant while all threads
//! run. `call` waits; no other function does.
#![tactic(auto)]

mod calls;
mod close;
mod combined;
mod helper;
pub mod laws;
mod notes;
mod rule;
mod share;
mod shared;
mod steps;
mod view;

pub use combined::Combined;
pub use helper::{Alone, Helper};
pub use shared::{Caller, Failed, Note, Shared};
#[doc(hidden)]
pub use view::{Asked, Entry, Request, Slot, View};
