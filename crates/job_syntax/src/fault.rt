//! The faults of a text that is not a job.
ghost use Rattle.std.specs.Prelude.{◌≡◌};

use thiserror::Error;

/// Why a text is not a job, and on which line. Lines count from 1.
#[derive(Clone, Copy, Debug, Error)]
#[error("line {}: {}", self.line(), self.words())]
pub enum JobFault {
    /// A byte that is not allowed outside comments.
    Byte { line: u32 },
    /// A token that does not fit the grammar, or a text that ends too early.
    Grammar { line: u32 },
    /// A number with a leading zero, or past 32 bits.
    Number { line: u32 },
    /// A block inside as many others as may be open.
    Nesting { line: u32 },
    /// More than `MOST_LEAVES` leaves.
    Leaves { line: u32 },
    /// An argument that does not fit 32 bits in some copy.
    Argument { line: u32 },
    /// A use of a name that sees no `let` of it.
    Name { line: u32 },
}

impl JobFault {
    ghost use Rattle.job_syntax.specs.Lines.{line_in, fault_words};

    /// The line of the fault.
    pub fn line(self) -> u32
        ensures { result ≡ line_in self }
    {
        match self {
            JobFault::Byte { line }
            | JobFault::Grammar { line }
            | JobFault::Number { line }
            | JobFault::Nesting { line }
            | JobFault::Leaves { line }
            | JobFault::Argument { line }
            | JobFault::Name { line } => line,
        }
    }

    /// The message for the fault, which is printed after its line.
    pub fn words(self) -> &'static str
        ensures { result.now ≡ fault_words self }
    {
        match self {
            JobFault::Byte { .. } => "byte not allowed",
            JobFault::Grammar { .. } => "not in the grammar",
            JobFault::Number { .. } => "number out of range",
            JobFault::Nesting { .. } => "blocks nested too deep",
            JobFault::Leaves { .. } => "too many leaves",
            JobFault::Argument { .. } => "argument out of range",
            JobFault::Name { .. } => "name not known here",
        }
    }
}
