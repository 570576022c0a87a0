//! What a lawful report is to the program that made the calls: a serial run, as if one thread had made them one after
//! another.
//!
//! The law [`lawful_reports_are_serial`] takes a report as `Lawful` has it, with its workers, ticks and batches, and
//! gives what a caller relies on: which calls were made, in an order that keeps that of the job, with which replies.
//! [`lawful_reports_with_work_are_serial`] says the same of a job whose leaves of work run a function of the caller's.
#![tactic(auto)]

pub mod laws;

pub use laws::{lawful_reports_are_serial, lawful_reports_with_work_are_serial};
