//! A whole run: compute the answer, write its lines once, and report an early end.
ghost use Rattle.std.specs.Prelude.{◌≡◌, ℕ, Bool, List, Option, Err, IfOk, IfErr, IsTrue};
ghost use Rattle.bt_io.specs.Causes.{Rose};
ghost use Rattle.program_io.specs.Lines.{told_text, Tells};
ghost use Rattle.program_io.specs.Ends.{StopCause, EndCause, Prints};
ghost use Rattle.program_io.specs.declared.program.End.{End as EndOf};

use crate::line::{Line, tell};
use bt_io::{Failed, Shelf, Sink, write_all};
use std::alloc::Global;

/// Why a program stops before it writes its answer.
#[derive(Clone, Copy)]
pub enum Stop<F: Copy> {
    /// A file could not be chosen, or not read to its end.
    ReadFault,
    /// The program refuses the contents of its files.
    Refused(F),
    /// Out of memory.
    Memory,
}

/// How a program ends.
#[derive(Clone, Copy)]
pub enum End<F: Copy> {
    /// All lines of the answer were written.
    Done,
    /// The program stopped before it wrote its answer.
    Stopped(Stop<F>),
    /// A write failed before all lines of the answer were written.
    WriteFault,
}

/// How a program ended, and its answer, which is there unless the program stopped before it wrote.
#[derive(Drop)]
pub struct Ran<T: Drop, F: Copy> {
    pub end: End<F>,
    pub told: Option<T>,
}

/// What a program computes, from its parsed arguments (the value of this type) to its answer.
///
/// `are_held`, `answers` and `refuses` take the files' contents as a map from a name to its bytes, where known.
pub trait Program {
    /// The answer.
    type Told: Drop;
    /// The reason for which file contents are refused.
    type Refusal: Copy;

    /// Each file that the program reads is a name that the shelf may be asked for.
    ghost may_read: { Self → (List ℕ → Bool) → Type 0 };

    /// The shelf holds each file that the program reads.
    ghost are_held: { Self → (List ℕ → Option (List ℕ)) → Type 0 };

    /// The answer is right for the files' contents, and the bytes are the lines that report it.
    ghost answers: { Self → (List ℕ → Option (List ℕ)) → Self.Told → List ℕ → Type 0 };

    /// The files' contents are refused for this reason.
    ghost refuses: { Self → (List ℕ → Option (List ℕ)) → Self.Refusal → Type 0 };

    /// The text of the diagnostic for an end; empty if there is none.
    ghost line: { Self → EndOf Self.Refusal → List ℕ };

    /// Reads the files, and computes the answer and the lines that report it.
    fn answer<I: Shelf>(
        &self,
        alloc: Global,
        shelf: &mut I,
    ) -> Result<(Self::Told, Vec<u8>), Stop<Self::Refusal>>
        requires { may_read self.now (I.may shelf.old) }
        ensures ok { IfOk result (λ told. answers self.now (I.held shelf.old) told.0 told.1.items) }
        ensures err { IfErr result (λ stop. StopCause stop (refuses self.now (I.held shelf.old))
            (Rose (I.faults shelf.old) (I.faults shelf.new))) }
        ensures sure { IsTrue (I.never_fails shelf.old)
            → are_held self.now (I.held shelf.old)
            → result ≡ Err Stop.ReadFault
            → ⊥ };

    /// The diagnostic for an end, if it has one.
    fn line_of(&self, end: End<Self::Refusal>) -> Option<Line<'static>>
        ensures { told_text result ≡ line self.now end };
}

/// Runs a program: computes its answer, writes the answer's lines once to `out`, and the end's diagnostic to `err`.
///
/// A failed write to `err` is ignored. Memory: none besides the program's own.
pub fn run_program<P: Program, I: Shelf, O: Sink, E: Sink>(
    alloc: Global,
    program: &P,
    shelf: &mut I,
    out: &mut O,
    err: &mut E,
) -> Ran<P::Told, P::Refusal>
    requires { P.may_read program.now (I.may shelf.old) }
    ensures prints { Prints (P.answers program.now (I.held shelf.old)) result.end result.told
        (O.taken out.old) (O.taken out.new) (O.room_left out.old) }
    ensures cause { EndCause result.end (P.refuses program.now (I.held shelf.old))
        (Rose (I.faults shelf.old) (I.faults shelf.new))
        (Rose (O.faults out.old) (O.faults out.new)) }
    ensures reads { IsTrue (I.never_fails shelf.old)
        → P.are_held program.now (I.held shelf.old)
        → result.end ≡ End.Stopped Stop.ReadFault
        → ⊥ }
    ensures tells { Tells (P.line program.now result.end) (E.taken err.old) (E.taken err.new)
        (Rose (E.faults err.old) (E.faults err.new)) }
{
    let ran = match program.answer(alloc, shelf) {
        Ok((told, lines)) => {
            let end = match write_all(out, lines.as_slice()) {
                Ok(()) => End::Done,
                Err(Failed) => End::WriteFault,
            };
            Ran {
                end,
                told: Some(told),
            }
        }
        Err(stop) => Ran {
            end: End::Stopped(stop),
            told: None,
        },
    };
    tell(err, program.line_of(ran.end));
    ran
}
