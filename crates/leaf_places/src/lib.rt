//! Where the leaves of a job stand in its text, and the rows that say it.
//!
//! `places_in` gives for each leaf of an accepted text the line of its item and the copies of the loops around it:
//! `walk` goes over the items once, by the numbers of words that `job_lang` gives. `rows_of` writes a row for each
//! leaf, with its place, what it does, and the place of its source. `laws` says that a text has one list of rows.
//!
//! In `specs/` the rules stand at the top, and what only the code and its proofs cite in `Code/`. The crate stands on
//! `job_lang`, which says where a leaf of a job comes from, on `job_syntax` for words and items, on `sp_order` and
//! `seq_objects` for jobs and their acts, and on `job_names` for the names of objects.
#![tactic(auto)]

pub mod laws;
mod place;
mod reader;
mod rows;
mod walk;

pub use place::LeafPlace;
pub use reader::places_in;
pub use rows::rows_of;
