//! The status of a run: how it ended, and the exit code of the process.
ghost use Rattle.std.specs.Prelude.{◌≡◌, None, codes};
ghost use Rattle.program_io.specs.Lines.{said, told_text};

use program_io::Line;

/// How a run ends.
#[derive(Clone, Copy)]
pub enum CountStatus {
    /// The counts were written.
    Done,
    /// The words do not name a file and a number of threads.
    Usage,
    /// The file could not be opened or read to its end.
    ReadFault,
    /// The file has more than 67,108,864 bytes.
    Refused,
    /// The counts could not be written whole.
    WriteFault,
    /// Memory ran out.
    Memory,
}

/// The program's line with these words.
fn says(words: &'static [u8]) -> Option<Line<'static>>
    ensures { told_text result ≡ said (codes "wordcount") None words.now }
{
    Some(Line {
        program: b"wordcount",
        number: None,
        words,
    })
}

impl CountStatus {
    ghost use Rattle.wordcount.specs.Lines.{exit_of, status_line};

    /// The exit code of the process.
    pub fn number(self) -> u8
        ensures { result ≡ exit_of self }
    {
        match self {
            CountStatus::Done => 0,
            CountStatus::Usage => 2,
            CountStatus::ReadFault => 3,
            CountStatus::Refused => 4,
            CountStatus::WriteFault => 5,
            CountStatus::Memory => 6,
        }
    }

    /// The line on err, or `None` for counts that were written.
    pub fn line(self) -> Option<Line<'static>>
        ensures { told_text result ≡ status_line self }
    {
        match self {
            CountStatus::Done => None,
            CountStatus::Usage => says(b"usage: wordcount FILE THREADS"),
            CountStatus::ReadFault => says(b"read fault"),
            CountStatus::Refused => says(b"file longer than 67108864 bytes"),
            CountStatus::WriteFault => says(b"write fault"),
            CountStatus::Memory => says(b"out of memory"),
        }
    }
}
