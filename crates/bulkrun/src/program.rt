//! The whole program: from the words and a shelf to what is printed.
ghost use Rattle.std.specs.Prelude.{◌≡◌, ◌↔◌, IsNone, codes};
ghost use Rattle.std.specs.Option.{ForSome};
ghost use Rattle.bt_io.specs.Causes.{Rose};
ghost use Rattle.program_io.specs.Lines.{Tells};
ghost use Rattle.batch_script.specs.Scripts.{script_of};
ghost use Rattle.batch_script.specs.Words.{spelled, file_of, MayRead};
ghost use Rattle.batch_script.specs.Lines.{status_line};
ghost use Rattle.batch_script.specs.Outcomes.{Reads, Prints, HasCause, Completes, IsAssured};
ghost use Rattle.bulkrun.specs.Calls.{bulk_call};
ghost use Rattle.bulkrun.specs.Text.{bulk_text};

use crate::server::SetServer;
use batch_script::{ScriptStatus, run_script};
use bt_io::{Shelf, Sink};
use std::alloc::Global;
use std::thread::Threads;

/// The name of the program.
pub const NAME: &[u8] = b"bulkrun";

/// What the line on err says of a wrong use.
pub const USAGE: &[u8] = b"usage: bulkrun FILE";

/// Runs the program on its words, over any shelf and sinks.
///
/// The one word names a file, which holds a script. A set of numbers serves its batches one after another, and the
/// lines of all calls are written once, on `out`; or the line that says why not, on `err`. The run joins the threads
/// that it starts, and waits for no others. Memory may run out at any step.
pub fn bulkrun<R: Threads + Sync, I: Shelf, O: Sink, E: Sink>(
    rt: &R,
    alloc: Global,
    words: &[String],
    shelf: &mut I,
    out: &mut O,
    err: &mut E,
) -> ScriptStatus
    requires may { MayRead (I.may shelf.old) (file_of (spelled words.now)) }

    ensures theorem { Prints (Reads (file_of (spelled words.now)) (I.held shelf.old)) (script_of bulk_call)
        bulk_text result (O.taken out.old) (O.taken out.new) }
    ensures usage { (result ≡ ScriptStatus.Usage) ↔ IsNone (file_of (spelled words.now)) }
    ensures cause { ForSome (file_of (spelled words.now))
        (λ file. HasCause (script_of bulk_call) result (I.held shelf.old file)
        (Rose (I.faults shelf.old) (I.faults shelf.new)) (Rose (O.faults out.old) (O.faults out.new))) }
    ensures completes { ForSome (file_of (spelled words.now))
        (λ file. Completes (script_of bulk_call) result (I.held shelf.old file)
        (Rose (I.faults shelf.old) (I.faults shelf.new)) (Rose (O.faults out.old) (O.faults out.new))) }
    ensures assured { ForSome (file_of (spelled words.now))
        (λ file. IsAssured (script_of bulk_call) bulk_text result
        (I.held shelf.old file) (I.never_fails shelf.old) (O.room_left out.old)) }
    ensures tells { Tells (status_line (codes "bulkrun") result) (E.taken err.old) (E.taken err.new)
        (Rose (E.faults err.old) (E.faults err.new)) }
{
    run_script::<R, SetServer, I, O, E>(rt, alloc, NAME, USAGE, words, shelf, out, err)
}
