//! The rule of the running table: by it the table's words and slots stand for a state of the scheduler's core.
//!
//! Between any two steps of any passes, the table shows one state of the core that satisfies the invariant
//! (`specs/Shows.antt` is the refinement mapping). `core_model` proves that events keep the invariant; this crate only
//! cites that law. A pass's view is what it knows and has done (`PassView`, which contracts see, within the `View` of
//! its seat). Each kind of step has a play, which says what the step does to the view of its own pass. `core_table` has
//! the calls that make these steps.
#![tactic(auto)]

pub mod laws;
mod layout;
pub mod plays;
mod progress;
mod slot;
mod status;
mod view;

pub use layout::Layout;
pub use progress::{CODES, DONE, READY, RanLeaf, TAKEN, TICKS, decode_undoes_encode};
#[doc(hidden)]
pub use slot::{OpRecord, Slot};
pub use status::{EXECUTING, FREE, PENDING, SERVED};
pub use view::{HoldView, LeftCall, Miss, PassView, View};
