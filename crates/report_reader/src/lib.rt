//! Reads the text of a report back: exactly the report that has this text.
//!
//! A raw report is a number of workers, a book of batches and a list of rows whose numbers fit their types, on objects
//! that a job calls. It need not be lawful for the job: whether it is, is for a checker to say, which finds here what the
//! text states. `read_report` is the inverse of `batch_history::text`, and `read_alone` reads a report whose job is not
//! at hand, with the names of its objects. `stops_at` tells the line that keeps a text from being read. `laws` states
//! that a text is that of one raw report of a job at most, and of one report in words. The crate builds on
//! `batch_history` for reports and their text, on `sp_order` and `job_names` for the objects of jobs and their names, on
//! `seq_objects` for the table of verbs, operations and replies, on `indexmap` for the numbers of names, on `decimals`
//! for numbers and runs of bytes, and on `limits` for the most workers.
#![tactic(auto)]

mod batches;
mod call;
pub mod error;
mod head;
pub mod laws;
mod object;
mod operation;
pub mod raw;
pub mod reader;
mod reply;
mod row;
pub mod stop;
mod table;
mod words;

pub use error::ReadReportErr;
pub use raw::{NamedReport, RawReport};
pub use reader::{read_alone, read_report};
pub use stop::stops_at;
