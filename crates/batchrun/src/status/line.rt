//! The line that each status has on err.
ghost use Rattle.std.specs.Prelude.{◌≡◌, None, codes};
ghost use Rattle.program_io.specs.Lines.{said, told_text};

use crate::status::{Refusal, Status};
use program_io::Line;

/// The program's line with these words, which names no line of its input.
fn says(words: &'static [u8]) -> Option<Line<'static>>
    ensures { told_text result ≡ said (codes "batchrun") None words.now }
{
    Some(Line {
        program: b"batchrun",
        number: None,
        words,
    })
}

impl Status {
    ghost use Rattle.batchrun.specs.Lines.{fault_line};

    /// The line on err, or `None` for a run that wrote its lines.
    #[tactic(auto, using(crate::proofs::RefusalLines::refusal_said))]
    pub fn line(self) -> Option<Line<'static>>
        ensures { told_text result ≡ fault_line self }
    {
        match self {
            Status::Done | Status::Made => None,
            Status::Usage => says(
                b"usage: step FILE WORKERS [SCHEDULE] | run FILE WORKERS | gen SIZE SEED WORKERS",
            ),
            Status::ReadFault => says(b"read fault"),
            Status::Refused(Refusal::TooLong) => says(b"job longer than 1048576 bytes"),
            Status::Refused(Refusal::Job(fault)) => Some(Line {
                program: b"batchrun",
                number: Some(fault.line()),
                words: fault.words().as_bytes(),
            }),
            Status::WriteFault => says(b"write fault"),
            Status::Memory => says(b"out of memory"),
        }
    }
}
