//! The run of a job in threads over the running table, which promises a lawful report for every interleaving of the
//! threads.
//!
//! All threads share the running table, the deques and the board, and take no lock. After a bounded wait for the others
//! (`run_points`) each worker takes the turns of `worker_turns`. The deques are made and dropped in threads too
//! (`table_run::deques`).
//!
//! The run makes the workers of a job, runs them, and joins them all. A job without leaves starts no threads. The crate
//! does not claim that more than one thread works, that no worker starves, or how long a run takes.
#![tactic(auto)]

mod table_run;

pub use table_run::{run_table, run_table_with};
pub use worker_turns::{
    Called, Crew, Did, Me, Stop, Trapped, call, free_turn, launch, trapped_turn,
};
