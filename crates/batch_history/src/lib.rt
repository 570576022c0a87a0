//! What a run did: the history of its batches, the rows of its leaves, and the report of both.
//!
//! `Lawful` is the headline property of the project: it says when a report is right for a job and a number of workers.
//! A `History` has the invariant that its batches are legal for the serial objects. The crate also prints a report as
//! text and as a summary; `laws` says for which jobs all runs have the same summary. It builds on `sp_order` and
//! `seq_objects`, on `itoa` for decimal numbers, and on `key_sets` for the laws of sets.
#![tactic(auto)]

pub mod batch;
pub mod history;
pub mod laws;
pub mod place;
pub mod report;
pub mod report_text;
pub mod reserved;
pub mod row;
pub mod summary;
pub mod tally;
mod words;

pub use batch::{Batch, Entry};
pub use history::History;
pub use place::{Place, place_in, place_of};
pub use report::Report;
pub use report_text::text;
pub use reserved::ReservedHistory;
pub use row::{Row, Rows};
pub use summary::made_text;
pub use tally::Tally;
