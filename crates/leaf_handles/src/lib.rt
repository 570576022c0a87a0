//! Handles of the leaves of a job.
//!
//! The builder of a job gives a [`Handle`] for each leaf that it adds. A later call uses it as its argument, and the
//! results of a run are looked up by it. It carries the number of its job, so that a builder can tell the handles of
//! another one.
#![tactic(auto)]

pub mod handle;

pub use handle::Handle;
