//! The results of a job that was run, by the handles of its leaves.
//!
//! [`RanWith`] is a job with a lawful report of it, where the leaves of work did work of the caller's; [`Ran`] is one
//! where they spun. It tells the value of each leaf, and of each call its place and its reply. What these may be follows
//! from the law of `serial_runs`, which [`RanWith::is_serial`] cites.
#![tactic(auto)]

pub mod ran;

pub use ran::{Ran, RanWith};
