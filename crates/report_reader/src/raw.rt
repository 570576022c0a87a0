//! Raw reports: what the text of a report states, whether or not it is lawful.
ghost use Rattle.std.specs.Prelude.{◌≡◌};

use batch_history::{Batch, Row, Rows};
use job_names::Name;
use std::marker::Model;

/// A report that was read from a text. Contracts see the `Report` that it is; the type invariant is `FitsTypes`.
#[derive(Drop)]
pub struct RawReport {
    pub(crate) workers: u32,
    pub(crate) batches: Vec<Batch>,
    pub(crate) rows: Rows,
}

/// A report that was read alone, and the names of the objects that it numbers 1, 2, and so on.
#[derive(Drop)]
pub struct NamedReport {
    /// The report.
    pub raw: RawReport,
    /// The names.
    pub names: Vec<Name>,
}

impl Model for RawReport {
    ghost use Rattle.batch_history.specs.declared.report.Report.{Report};
    ghost use Rattle.report_reader.specs.Raw.{FitsTypes};

    ghost Value = { Report };

    ghost view = { λ raw. record { workers = raw.workers; history = raw.batches.items; rows = raw.rows } };

    ghost invariant = { λ raw. FitsTypes (record { workers = raw.workers; history = raw.batches.items; rows = raw.rows }) };
}

impl RawReport {
    ghost use Rattle.report_reader.specs.Raw.{FitsTypes};

    /// The number of workers that the report states.
    pub fn workers(&self) -> u32
        ensures workers { result ≡ self.now.workers }
        ensures fits { FitsTypes self.now }
    {
        self.workers
    }

    /// The batches of the book, from batch 0.
    pub fn batches(&self) -> &[Batch]
        ensures batches { result.now ≡ self.now.history }
        ensures fits { FitsTypes self.now }
    {
        self.batches.as_slice()
    }

    /// The rows, in order.
    pub fn rows(&self) -> &[Row]
        ensures rows { result.now ≡ self.now.rows }
        ensures fits { FitsTypes self.now }
    {
        self.rows.list()
    }
}
