//! The reference implementation of a run in threads: all threads share the scheduler's core under one lock.
//!
//! It makes the same promise as the run over the running table, a lawful report for every interleaving of the threads,
//! and no program runs it. A worker holds the lock (`run`) for one turn at a time (`turn`), and does outside it the
//! work of its leaves, its pushes and its pauses (`worker`). A worker that has no event looks for a sign of work in the
//! deques (`hints`). `locked` makes the workers of a job, runs them in threads, and joins them all. A job without
//! leaves starts no threads. The crate does not claim that more than one thread works, that no worker starves, or how
//! long a run takes.
#![tactic(auto)]

mod hints;
mod locked;
pub mod run;
mod sending;
pub mod turn;
mod worker;

pub use locked::run_locked;
