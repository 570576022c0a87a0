//! The status of a run: how it ended, and the exit code of the process.
ghost use Rattle.std.specs.Prelude.{◌≡◌};

pub mod line;

use job_lang::JobFault;

/// Why a file was refused.
#[derive(Clone, Copy)]
pub enum Refusal {
    /// The file has more bytes than a job may have.
    TooLong,
    /// The bytes of the file are not a job.
    Job(JobFault),
}

/// How a run ends.
#[derive(Clone, Copy)]
pub enum Status {
    /// The report was written.
    Done,
    /// The summary of a generated job was written.
    Made,
    /// The words are not a command.
    Usage,
    /// The file could not be opened or read to its end.
    ReadFault,
    /// The file was refused.
    Refused(Refusal),
    /// The report could not be written whole.
    WriteFault,
    /// Memory ran out.
    Memory,
}

impl Status {
    ghost use Rattle.batchrun.specs.Lines.{exit_of};

    /// The exit code of the process.
    pub fn number(self) -> u8
        ensures { result ≡ exit_of self }
    {
        match self {
            Status::Done | Status::Made => 0,
            Status::Usage => 2,
            Status::ReadFault => 3,
            Status::Refused(_) => 4,
            Status::WriteFault => 5,
            Status::Memory => 6,
        }
    }
}
