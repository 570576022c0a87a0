//! The writer and the generator of jobs.
//!
//! `write_job` writes the canonical text of a job, which reads back as that job. `generate` makes a job from a seed and
//! a size. `laws` says that the words of a call in a report are a text of a job, and that a generated job has a text,
//! has few leaves, and fills each structure before it queries it.
//!
//! In `specs/` the rules stand at the top, and what only the code and its proofs cite in `Code/`. The crate stands on
//! `job_lang`, which says of which job a text is, and which joins shapes, on `sp_order` and `seq_objects`, for jobs and
//! their acts, on `job_names`, for the names of objects, and on `call_words`, which writes the words of a call.
#![tactic(auto)]

mod generator;
pub mod laws;
mod writer;

pub use generator::generate;
pub use writer::write_job;
