//! The line that each verdict has on err.
ghost use Rattle.std.specs.Prelude.{◌≡◌, None, codes};
ghost use Rattle.program_io.specs.Lines.{said, told_text};

use crate::verdict::{CheckRefusal, Verdict};
use program_io::Line;

/// The program's line with these words, which names no line of its input.
fn says(words: &'static [u8]) -> Option<Line<'static>>
    ensures { told_text result ≡ said (codes "batchcheck") None words.now }
{
    Some(Line {
        program: b"batchcheck",
        number: None,
        words,
    })
}

impl Verdict {
    ghost use Rattle.batchcheck.specs.Lines.{verdict_line};

    /// The line on err, or `None` for a verdict that was printed.
    #[tactic(auto, using(crate::proofs::RefusalLines::refusal_said))]
    pub fn line(self) -> Option<Line<'static>>
        ensures { told_text result ≡ verdict_line self }
    {
        match self {
            Verdict::Lawful | Verdict::Flawed(_) => None,
            Verdict::Usage => says(b"usage: batchcheck JOB REPORT"),
            Verdict::ReadFault => says(b"read fault"),
            Verdict::Refused(CheckRefusal::JobTooLong) => says(b"job longer than 1048576 bytes"),
            Verdict::Refused(CheckRefusal::ReportTooLong) => {
                says(b"report longer than 8388608 bytes")
            }
            Verdict::Refused(CheckRefusal::Job(fault)) => Some(Line {
                program: b"batchcheck",
                number: Some(fault.line()),
                words: fault.words().as_bytes(),
            }),
            Verdict::WriteFault => says(b"write fault"),
            Verdict::Memory => says(b"out of memory"),
        }
    }
}
