//! Jobs that are built in code.
//!
//! A [`Builder`] takes the leaves of a job from left to right, in blocks that are opened and closed. Each leaf that it
//! takes has a handle: a later call may take the value of an earlier leaf where that is visible, a later leaf of work
//! the reply of an earlier call, and the results of a run are looked up by it. What is refused has a cause, a
//! [`BuildError`], and leaves the builder as it was.
//!
//! `blocks` of `joined_shapes` knows which leaves are before the next one, and `named_objects` numbers the objects.
#![tactic(auto)]

pub mod builder;
pub mod error;
pub mod laws;

pub use builder::Builder;
pub use error::BuildError;
pub use job_names::Name;
pub use joined_shapes::Order;
pub use leaf_handles::Handle;
