//! The job language: which texts are jobs, and the reader.
//!
//! `read_job` gives the job of a text that the grammar accepts, and of any other text its one fault, with its line.
//! `job_syntax` reads the bytes to words and the words to items. This crate defines what items mean and makes their
//! job: `text_limits` counts the leaves and checks the range of arguments, and `expand` makes the copies of the loops, joins
//! their shapes by `join`, and numbers the objects that leaves name. `laws` says that each text has one job or one
//! fault, and not both, that leaves call the objects that they name, and which `let` a use means. `job_writer`, above,
//! writes the text of a job, and makes jobs from a seed, whose shapes it joins by `join` too.
//!
//! In `specs/` the rules stand at the top, and what only the code and its proofs cite in `Code/`. The crate stands on
//! `job_syntax`, whose errors and faults it re-exports, and on `sp_order` and `seq_objects`.
#![tactic(auto)]

mod arguments;
mod expand;
pub mod join;
pub mod laws;
mod reader;
mod text_limits;

pub use job_syntax::{JobErr, JobFault};
pub use reader::read_job;
pub use text_limits::word_count::item_word_count;
