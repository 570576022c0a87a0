//! The reader of scripts: it reads a text once, line by line.
ghost use Rattle.std.specs.Prelude.{◌≡◌, ◌+◌, ◌≤◌, List, ◌∷◌, length, IfErr, OnOk};
ghost use Rattle.limits.specs.declared.TheConstants.{MOST_SCRIPT_BYTES};
ghost use Rattle.batch_script.specs.Scripts.{are_go, script_of, Line};
ghost use Rattle.batch_script.specs.Answers.{IsReading, IsBadBy};
ghost use Rattle.batch_script.specs.Code.Reading.{comes_to};

use crate::fault::ScriptErr;
use crate::form::Form;
use crate::line::{LinesLeft, fill_names};
use crate::name::Name;
use crate::reading::Reading;
use crate::script::Script;
use std::alloc::Global;

/// Whether the words are those of the line that ends a batch.
fn are_go(words: &[Name]) -> bool
    ensures { result ≡ are_go words.now }
{
    match words {
        [word] => word.bytes() == b"go".as_slice(),
        _ => false,
    }
}

/// Takes the next line, by its words: nothing, the end of a batch, or a call.
fn take_line<F: Form>(
    alloc: Global,
    reading: &mut Reading<F::Call>,
    words: &[Name],
    line: u32,
) -> Result<(), ScriptErr>
    ensures few { OnOk result (length reading.new.done ≤ length reading.old.done + 1) }
    ensures ok { OnOk result ((lines : List Line)
        → comes_to F.call_of reading.old (record { number = line; words = words.now } ∷ lines)
        ≡ comes_to F.call_of reading.new lines) }
    ensures err { IfErr result (λ e. (lines : List Line)
        → IsBadBy (comes_to F.call_of reading.old (record { number = line; words = words.now } ∷ lines)) e) }
{
    if words.is_empty() {
        return Ok(());
    }
    if are_go(words) {
        return match reading.close(alloc) {
            Ok(()) => Ok(()),
            Err(_) => Err(ScriptErr::Memory),
        };
    }
    reading.take_call(F::call_of(words), line)
}

/// The script that a text is to the program whose calls are of the form `F`.
///
/// It is refused for its first fault, from the first line on. Time: linear in the bytes, and a `call_of` for each call.
/// Memory: linear in the bytes; a batch is a vector, and the words of a line use the buffers of the words before.
pub fn read_script<F: Form>(alloc: Global, bytes: &[u8]) -> Result<Script<F::Call>, ScriptErr>
    requires { length bytes.now ≤ MOST_SCRIPT_BYTES }
    ensures { IsReading (script_of F.call_of bytes.now) result }
{
    let mut names = Vec::new(alloc);
    let mut reading = Reading::new(alloc);
    let mut lines = LinesLeft::new(bytes);
    let mut number = 1;
    while let Some(line) = lines.next() {
        let Ok(count) = fill_names(alloc, line, &mut names) else {
            return Err(ScriptErr::Memory);
        };
        if let Err(e) = take_line::<F>(alloc, &mut reading, &names[..count], number) {
            return Err(e);
        }
        number += 1;
    }
    if reading.close(alloc).is_err() {
        return Err(ScriptErr::Memory);
    }
    Ok(reading.into_script())
}
