//! The line on err of each status.
ghost use Rattle.std.specs.Prelude.{◌≡◌, ◌++◌, codes};
ghost use Rattle.program_io.specs.Lines.{told_text};
ghost use Rattle.batch_script.specs.Lines.{status_line, fault_words, line_in};

use crate::fault::ScriptFault;
use crate::status::ScriptStatus;
use program_io::Line;

/// What is said of a fault.
fn fault_words(fault: ScriptFault) -> &'static [u8]
    ensures { result.now ≡ fault_words fault }
{
    match fault {
        ScriptFault::Call { .. } => b"not a call",
        ScriptFault::Batch { .. } => b"batch too large",
        ScriptFault::Calls { .. } => b"too many calls",
    }
}

/// A line of these words, under the program's name.
fn said<'a>(name: &'a [u8], words: &'a [u8]) -> Option<Line<'a>>
    ensures { told_text result ≡ name.now ++ codes ": " ++ words.now ++ codes "\n" }
{
    Some(Line {
        program: name,
        number: None,
        words,
    })
}

/// The line of a fault, under the program's name.
fn refused<'a>(name: &'a [u8], fault: ScriptFault) -> Option<Line<'a>>
    ensures { told_text result ≡ status_line name.now (ScriptStatus.Bad fault) }
{
    Some(Line {
        program: name,
        number: Some(fault.line()),
        words: fault_words(fault),
    })
}

/// The line of a status, under the program's name, if it has one.
pub(crate) fn line_of<'a>(name: &'a [u8], usage: &'a [u8], status: ScriptStatus) -> Option<Line<'a>>
    requires { usage.now ≡ codes "usage: " ++ name.now ++ codes " FILE" }
    ensures { told_text result ≡ status_line name.now status }
{
    match status {
        ScriptStatus::Done => None,
        ScriptStatus::Usage => said(name, usage),
        ScriptStatus::ReadFault => said(name, b"read fault"),
        ScriptStatus::TooLong => said(name, b"script longer than 1048576 bytes"),
        ScriptStatus::Bad(fault) => refused(name, fault),
        ScriptStatus::WriteFault => said(name, b"write fault"),
        ScriptStatus::Memory => said(name, b"out of memory"),
    }
}
