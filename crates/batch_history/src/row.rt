//! Rows of a report: who ran each leaf, when, and with which value.
ghost use Rattle.std.specs.Prelude.{◌≡◌};

use std::marker::Model;

/// What one leaf did: its worker, the ticks at which it started and ended, and its value. Ticks are draws from one
/// counter of the run that starts at 0; they do not measure time.
#[derive(Clone, Copy)]
pub struct Row {
    pub leaf: u32,
    pub worker: u32,
    pub start: u64,
    pub end: u64,
    pub value: u64,
}

/// The rows of a run's leaves. Contracts see a list.
#[derive(Drop)]
pub struct Rows {
    rows: Vec<Row>,
}

impl Model for Rows {
    ghost use Rattle.std.specs.Prelude.{List};
    ghost use Rattle.batch_history.specs.declared.row.Row.{Row};

    ghost Value = { List Row };

    ghost view = { λ r. r.rows.items };
}

impl Rows {
    /// These rows, in this order.
    ///
    /// Memory: none.
    pub fn of(rows: Vec<Row>) -> Rows
        ensures { result ≡ rows.items }
    {
        Rows { rows }
    }

    /// The rows, in order.
    pub fn list(&self) -> &[Row]
        ensures { result.now ≡ self.now }
    {
        self.rows.as_slice()
    }
}
