//! The outcome of a run: its status, and its report.
ghost use Rattle.std.specs.Prelude.{◌≡◌, None};

use crate::status::Status;
use batch_history::Report;

/// How a run ended, and its report, which is present exactly where its lines were to be written.
#[derive(Drop)]
pub struct Outcome {
    pub status: Status,
    pub report: Option<Report>,
}

impl Outcome {
    /// The outcome of a run that ended before it had a report.
    pub(crate) fn stopped(status: Status) -> Outcome
        ensures status { result.status ≡ status }
        ensures report { result.report ≡ None }
    {
        Outcome {
            status,
            report: None,
        }
    }
}
