//! The picture of a report: an SVG document, exactly the one that a definition apart from the code says.
//!
//! `picture` draws a raw report, lawful or not: a lane for each worker with a box for each leaf from its start to its
//! end, and the book of batches below, each with its calls under a bracket. Past 2,000 leaves or calls columns of ticks
//! take the place of the boxes. `laws` states what the boxes and brackets mean, that the document is well-formed, and
//! that a text has one picture. The crate builds on `report_shares`, which counts what columns show, on `report_reader`
//! for raw reports, on `batch_history`, `seq_objects`, `sp_order` and `job_names` for what they hold, on `call_words`
//! for the words of operations, and on `itoa` for decimal numbers.
#![tactic(auto)]

mod batches;
mod boxes;
mod bytes;
mod columns;
pub mod drawing;
mod find;
mod frame;
pub mod laws;
mod shapes;
mod sizes;
mod words;

pub use drawing::picture;
