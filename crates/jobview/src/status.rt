//! The status of a run: how it ended, and the exit code of the process.
ghost use Rattle.std.specs.Prelude.{◌≡◌, None, codes};
ghost use Rattle.program_io.specs.Lines.{said, told_text};
ghost use Rattle.jobview.specs.Code.{status_of};

use job_lang::JobFault;
use program_io::{End, Line, Stop};

/// Why the file was refused.
#[derive(Clone, Copy)]
pub enum ViewRefusal {
    /// The file has more than `MOST_JOB_BYTES` bytes.
    TooLong,
    /// The bytes of the file are not a job.
    Job(JobFault),
    /// The job is too deep for a canonical text: its shape has more than `MOST_OPEN_BLOCKS` blocks in one another.
    TooDeep,
}

/// How a run ends.
#[derive(Clone, Copy)]
pub enum ViewStatus {
    /// What was asked for was written.
    Done,
    /// The words do not name one file.
    Usage,
    /// The file could not be opened or read to its end.
    ReadFault,
    /// The file was refused.
    Refused(ViewRefusal),
    /// What was asked for could not be written whole.
    WriteFault,
    /// Memory ran out.
    Memory,
}

/// The program's line with these words, which names no line of its input.
fn says(words: &'static [u8]) -> Option<Line<'static>>
    ensures { told_text result ≡ said (codes "jobview") None words.now }
{
    Some(Line {
        program: b"jobview",
        number: None,
        words,
    })
}

impl ViewStatus {
    ghost use Rattle.jobview.specs.Lines.{exit_of, status_line};

    /// The exit code of the process.
    pub fn number(self) -> u8
        ensures { result ≡ exit_of self }
    {
        match self {
            ViewStatus::Done => 0,
            ViewStatus::Usage => 2,
            ViewStatus::ReadFault => 3,
            ViewStatus::Refused(_) => 4,
            ViewStatus::WriteFault => 5,
            ViewStatus::Memory => 6,
        }
    }

    /// The line on err, or `None` for a run that is done.
    pub fn line(self) -> Option<Line<'static>>
        ensures { told_text result ≡ status_line self }
    {
        match self {
            ViewStatus::Done => None,
            ViewStatus::Usage => says(b"usage: jobview [--text] JOB"),
            ViewStatus::ReadFault => says(b"read fault"),
            ViewStatus::Refused(ViewRefusal::TooLong) => says(b"job longer than 1048576 bytes"),
            ViewStatus::Refused(ViewRefusal::Job(fault)) => Some(Line {
                program: b"jobview",
                number: Some(fault.line()),
                words: fault.words().as_bytes(),
            }),
            ViewStatus::Refused(ViewRefusal::TooDeep) => says(b"canonical text nested too deep"),
            ViewStatus::WriteFault => says(b"write fault"),
            ViewStatus::Memory => says(b"out of memory"),
        }
    }
}

/// The status of a run that ended so.
pub(crate) fn status_of(end: End<ViewRefusal>) -> ViewStatus
    ensures { result ≡ status_of end }
{
    match end {
        End::Done => ViewStatus::Done,
        End::Stopped(Stop::ReadFault) => ViewStatus::ReadFault,
        End::Stopped(Stop::Refused(refusal)) => ViewStatus::Refused(refusal),
        End::Stopped(Stop::Memory) => ViewStatus::Memory,
        End::WriteFault => ViewStatus::WriteFault,
    }
}
