//! Why no report was read.
ghost use Rattle.std.specs.Prelude.{◌≡◌};
ghost use Rattle.report_reader.specs.declared.error.ReadReportErr.TheVariants.{Memory};

use std::alloc::AllocError;

/// Why a text gave no report.
#[derive(Clone, Copy)]
pub enum ReadReportErr {
    /// No raw report has this text.
    NoReport,
    /// Memory ran out.
    Memory,
}

impl From<AllocError> for ReadReportErr {
    ghost from_gives = { λ _ e. e ≡ Memory };

    fn from(_error: AllocError) -> ReadReportErr {
        ReadReportErr::Memory
    }
}
