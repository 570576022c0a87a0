//! The verdict of a run: how it ended, and the exit code of the process.
ghost use Rattle.std.specs.Prelude.{◌≡◌};
ghost use Rattle.batchcheck.specs.Code.{stopped};

mod line;

use job_lang::JobFault;
use program_io::Stop;
use report_check::Flaw;

/// Why the files were refused before the report was judged.
#[derive(Clone, Copy)]
pub enum CheckRefusal {
    /// The job's file has more than `MOST_JOB_BYTES` bytes.
    JobTooLong,
    /// The report's file has more than `MOST_REPORT_BYTES` bytes.
    ReportTooLong,
    /// The bytes of the job's file are not a job.
    Job(JobFault),
}

/// How a run ends.
#[derive(Clone, Copy)]
pub enum Verdict {
    /// The text is that of a lawful report.
    Lawful,
    /// The text fails by this flaw as a report of the job.
    Flawed(Flaw),
    /// The words are not two files.
    Usage,
    /// A file could not be opened or read to its end.
    ReadFault,
    /// A file was refused.
    Refused(CheckRefusal),
    /// The verdict could not be written whole.
    WriteFault,
    /// Memory ran out.
    Memory,
}

impl Verdict {
    ghost use Rattle.batchcheck.specs.Lines.{exit_of};

    /// The exit code of the process.
    pub fn number(self) -> u8
        ensures { result ≡ exit_of self }
    {
        match self {
            Verdict::Lawful => 0,
            Verdict::Flawed(_) => 1,
            Verdict::Usage => 2,
            Verdict::ReadFault => 3,
            Verdict::Refused(_) => 4,
            Verdict::WriteFault => 5,
            Verdict::Memory => 6,
        }
    }
}

/// The verdict of a run that stopped before it judged the text.
pub(crate) fn stopped(stop: Stop<CheckRefusal>) -> Verdict
    ensures { result ≡ stopped stop }
{
    match stop {
        Stop::ReadFault => Verdict::ReadFault,
        Stop::Refused(refusal) => Verdict::Refused(refusal),
        Stop::Memory => Verdict::Memory,
    }
}
