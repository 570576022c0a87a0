//! The status of a run: how it ended, and the exit code of the process.
ghost use Rattle.std.specs.Prelude.{◌≡◌, None, codes};
ghost use Rattle.program_io.specs.Lines.{said, told_text};
ghost use Rattle.batchview.specs.Code.{status_of};

use program_io::{End, Line, Stop};

/// Why the file was refused.
#[derive(Clone, Copy)]
pub enum ViewRefusal {
    /// The file has more than `MOST_REPORT_BYTES` bytes.
    TooLong,
    /// The bytes of the file are not a report; this is the number of the first line that is none of a report's.
    NoReport(u32),
}

/// How a run ends.
#[derive(Clone, Copy)]
pub enum ViewStatus {
    /// The picture was written.
    Done,
    /// The words do not name one file.
    Usage,
    /// The file could not be opened or read to its end.
    ReadFault,
    /// The file was refused.
    Refused(ViewRefusal),
    /// The picture could not be written whole.
    WriteFault,
    /// Memory ran out.
    Memory,
}

/// The program's line with these words, which names no line of its input.
fn says(words: &'static [u8]) -> Option<Line<'static>>
    ensures { told_text result ≡ said (codes "batchview") None words.now }
{
    Some(Line {
        program: b"batchview",
        number: None,
        words,
    })
}

impl ViewStatus {
    ghost use Rattle.batchview.specs.Lines.{exit_of, status_line};

    /// The exit code of the process.
    pub fn number(self) -> u8
        ensures { result ≡ exit_of self }
    {
        match self {
            ViewStatus::Done => 0,
            ViewStatus::Usage => 2,
            ViewStatus::ReadFault => 3,
            ViewStatus::Refused(_) => 4,
            ViewStatus::WriteFault => 5,
            ViewStatus::Memory => 6,
        }
    }

    /// The line on err, or `None` for a picture that was written.
    pub fn line(self) -> Option<Line<'static>>
        ensures { told_text result ≡ status_line self }
    {
        match self {
            ViewStatus::Done => None,
            ViewStatus::Usage => says(b"usage: batchview REPORT"),
            ViewStatus::ReadFault => says(b"read fault"),
            ViewStatus::Refused(ViewRefusal::TooLong) => says(b"report longer than 8388608 bytes"),
            ViewStatus::Refused(ViewRefusal::NoReport(line)) => Some(Line {
                program: b"batchview",
                number: Some(line),
                words: b"not a report",
            }),
            ViewStatus::WriteFault => says(b"write fault"),
            ViewStatus::Memory => says(b"out of memory"),
        }
    }
}

/// The status of a run that ended so.
pub(crate) fn status_of(end: End<ViewRefusal>) -> ViewStatus
    ensures { result ≡ status_of end }
{
    match end {
        End::Done => ViewStatus::Done,
        End::Stopped(Stop::ReadFault) => ViewStatus::ReadFault,
        End::Stopped(Stop::Refused(refusal)) => ViewStatus::Refused(refusal),
        End::Stopped(Stop::Memory) => ViewStatus::Memory,
        End::WriteFault => ViewStatus::WriteFault,
    }
}
