//! Runs of a job, each with its results.
//!
//! [`run_by_turns`] runs a job on the caller's thread, one turn after another; [`run_in_threads`] runs it in a thread for
//! each worker. Both give a `Ran`, of which the same is known: its report is that of the job, which is lawful, and its
//! calls are a serial run. [`run_by_turns_with`] and [`run_in_threads_with`] do so where each leaf of work runs a function
//! of the caller's.
#![tactic(auto)]

pub mod runs;
pub mod runs_with;

pub use runs::{run_by_turns, run_in_threads};
pub use runs_with::{run_by_turns_with, run_in_threads_with};
