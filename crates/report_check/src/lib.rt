//! A checker of reports: what is wrong with a report for a job, if anything.
//!
//! `check` answers the first part of `Lawful` that a raw report does not keep, as a `Flaw`, or `None` where the report
//! is lawful for the job and its own number of workers. `laws` states that a text has one flaw or none, and that the
//! text of each lawful report has none. It builds on `report_reader`, which reads a report that need not be lawful, and
//! on `report_walks`, which decides each part.
#![tactic(auto)]

pub mod checker;
pub mod flaw;
pub mod laws;

pub use checker::check;
pub use flaw::Flaw;
