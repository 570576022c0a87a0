//! The run of a program over scripts: from its words and a shelf to what is printed.
ghost use Rattle.std.specs.Prelude.{◌≡◌, ◌↔◌, ◌++◌, None, Some, IsNone, codes, MatchOption};
ghost use Rattle.std.specs.Option.{ForSome};
ghost use Rattle.bt_io.specs.Causes.{Rose};
ghost use Rattle.program_io.specs.Lines.{Tells};
ghost use Rattle.batch_script.specs.Scripts.{script_of};
ghost use Rattle.batch_script.specs.Texts.{script_text};
ghost use Rattle.batch_script.specs.Words.{spelled, file_of, MayRead};
ghost use Rattle.batch_script.specs.Lines.{status_line, status_without_words};
ghost use Rattle.batch_script.specs.Outcomes.{Reads, Prints, HasCause, Completes, IsAssured};

mod file;
mod line;
mod text;

use self::file::run_file;
use self::line::line_of;
use crate::serves::Serves;
use crate::status::ScriptStatus;
use bt_io::{Shelf, Sink};
use program_io::{WordsErr, tell};
use std::alloc::Global;
use std::thread::Threads;

/// The file that the words name, if they are one word that is not empty.
fn file_in(words: &[String]) -> Option<&str>
    ensures { MatchOption result (file_of (spelled words.now) ≡ None)
        (λ file. file_of (spelled words.now) ≡ Some file.now) }
{
    match words {
        [file] if file.as_str() != "" => Some(file.as_str()),
        _ => None,
    }
}

/// Runs a program on its words: reads the script of the file, serves its batches one after another by an object of type
/// `T`, and writes the lines of all calls on `out`, or the line that says why not on `err`.
///
/// The text is made whole and written once. `usage` is what the line of the program `name` says of a wrong use. The run
/// joins the threads in which batches are served, and waits for no others. Memory may run out at any step.
pub fn run_script<R: Threads + Sync, T: Serves, I: Shelf, O: Sink, E: Sink>(
    rt: &R,
    alloc: Global,
    name: &[u8],
    usage: &[u8],
    words: &[String],
    shelf: &mut I,
    out: &mut O,
    err: &mut E,
) -> ScriptStatus
    requires usage { usage.now ≡ codes "usage: " ++ name.now ++ codes " FILE" }
    requires may { MayRead (I.may shelf.old) (file_of (spelled words.now)) }

    ensures theorem { Prints (Reads (file_of (spelled words.now)) (I.held shelf.old)) (script_of T.call_of)
        (script_text T.call_of T.lines T.after T.opening) result (O.taken out.old) (O.taken out.new) }
    ensures usage { (result ≡ ScriptStatus.Usage) ↔ IsNone (file_of (spelled words.now)) }
    ensures cause { ForSome (file_of (spelled words.now))
        (λ file. HasCause (script_of T.call_of) result (I.held shelf.old file)
        (Rose (I.faults shelf.old) (I.faults shelf.new)) (Rose (O.faults out.old) (O.faults out.new))) }
    ensures completes { ForSome (file_of (spelled words.now))
        (λ file. Completes (script_of T.call_of) result (I.held shelf.old file)
        (Rose (I.faults shelf.old) (I.faults shelf.new)) (Rose (O.faults out.old) (O.faults out.new))) }
    ensures assured { ForSome (file_of (spelled words.now))
        (λ file. IsAssured (script_of T.call_of) (script_text T.call_of T.lines T.after T.opening) result
        (I.held shelf.old file) (I.never_fails shelf.old) (O.room_left out.old)) }
    ensures tells { Tells (status_line name.now result) (E.taken err.old) (E.taken err.new)
        (Rose (E.faults err.old) (E.faults err.new)) }
{
    let status = match file_in(words) {
        Some(file) => run_file::<R, T, I, O>(rt, alloc, file, shelf, out),
        None => ScriptStatus::Usage,
    };
    tell(err, line_of(name, usage, status));
    status
}

/// Ends a run that got no words: writes the line of its status on `err`. Words that are no text are a wrong use.
pub fn end_without_words<E: Sink>(
    why: WordsErr,
    name: &[u8],
    usage: &[u8],
    err: &mut E,
) -> ScriptStatus
    requires { usage.now ≡ codes "usage: " ++ name.now ++ codes " FILE" }
    ensures status { result ≡ status_without_words why }
    ensures tells { Tells (status_line name.now result) (E.taken err.old) (E.taken err.new)
        (Rose (E.faults err.old) (E.faults err.new)) }
{
    let status = match why {
        WordsErr::NoText => ScriptStatus::Usage,
        WordsErr::Memory => ScriptStatus::Memory,
    };
    tell(err, line_of(name, usage, status));
    status
}
