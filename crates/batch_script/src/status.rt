//! The status of a run of a script: how it ended, and the number with which the process exits.
ghost use Rattle.std.specs.Prelude.{◌≡◌};

use crate::fault::ScriptFault;

/// How a run of a script ends.
#[derive(Clone, Copy)]
pub enum ScriptStatus {
    /// All lines were written.
    Done,
    /// The words are not one file.
    Usage,
    /// The file could not be chosen or read to its end.
    ReadFault,
    /// The file has more bytes than a script may have.
    TooLong,
    /// The file is no script.
    Bad(ScriptFault),
    /// The lines could not be written whole.
    WriteFault,
    /// Memory ran out.
    Memory,
}

impl ScriptStatus {
    ghost use Rattle.batch_script.specs.Lines.{exit_of};

    /// The number with which the process exits.
    pub fn number(self) -> u8
        ensures { result ≡ exit_of self }
    {
        match self {
            ScriptStatus::Done => 0,
            ScriptStatus::Usage => 2,
            ScriptStatus::ReadFault => 3,
            ScriptStatus::TooLong | ScriptStatus::Bad(_) => 4,
            ScriptStatus::WriteFault => 5,
            ScriptStatus::Memory => 6,
        }
    }
}
