//! The report of a run: its batches and one row for each leaf.

use crate::history::History;
use crate::row::Rows;

/// What a run with `workers` workers did. `Lawful` says when a report is right for a job.
#[derive(Drop)]
pub struct Report {
    pub workers: u32,
    pub history: History,
    pub rows: Rows,
}
