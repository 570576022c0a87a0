//! The whole program: from the words and a shelf to the picture.
ghost use Rattle.std.specs.Prelude.{◌≡◌, ◌↔◌, IsNone, IsTrue, IsSome};
ghost use Rattle.std.specs.Option.{ForSome};
ghost use Rattle.bt_io.specs.Causes.{Rose};
ghost use Rattle.program_io.specs.Lines.{Tells};
ghost use Rattle.batchview.specs.Words.{file_of, spelled, MayRead};
ghost use Rattle.batchview.specs.Lines.{status_line, status_without_words};
ghost use Rattle.batchview.specs.Outcomes.{IsPicture, Draws, Prints, HasCause, Completes, IsAssured};
ghost use Rattle.batchview.specs.Code.{FailsPast};

use crate::status::{ViewStatus, status_of};
use crate::words::{View, view_in};
use bt_io::{Shelf, Sink};
use program_io::{End, WordsErr, run_program, tell};
use report_picture::laws::texts_have_one_picture;
use std::alloc::Global;

/// Draws the report of a file, and writes its picture on `out`, or the line that says why there is none on `err`.
fn draw_file<I: Shelf, O: Sink, E: Sink>(
    alloc: Global,
    view: &View<'_>,
    shelf: &mut I,
    out: &mut O,
    err: &mut E,
) -> ViewStatus
    requires { IsTrue (I.may shelf.old view.now.file.now) }
    ensures prints { Prints (IsPicture (I.held shelf.old view.now.file.now)) result
        (O.taken out.old) (O.taken out.new) }
    ensures cause { HasCause (I.held shelf.old view.now.file.now) result
        (Rose (I.faults shelf.old) (I.faults shelf.new)) (Rose (O.faults out.old) (O.faults out.new)) }
    ensures reads { IsTrue (I.never_fails shelf.old)
        → IsSome (I.held shelf.old view.now.file.now)
        → result ≡ ViewStatus.ReadFault
        → ⊥ }
    ensures writes { FailsPast (IsPicture (I.held shelf.old view.now.file.now)) result (O.room_left out.old) }
    ensures tells { Tells (status_line result) (E.taken err.old) (E.taken err.new)
        (Rose (E.faults err.old) (E.faults err.new)) }
{
    let ran = run_program(alloc, view, shelf, out, err);
    match (ran.end, ran.told) {
        (End::Done, Some(())) => ViewStatus::Done,
        (End::Done, None) => unreachable!(),
        (End::Stopped(stop), _) => status_of(End::Stopped(stop)),
        (End::WriteFault, _) => ViewStatus::WriteFault,
    }
}

/// Runs the program on its words, over any shelf and sinks.
///
/// The one word names the file of a report, lawful or not; one that begins with `--` names none. Its picture is written
/// once, on `out`, or the line that says why there is none on `err`. Memory may run out at any step.
///
/// Time: linear in the report.
pub fn batchview<I: Shelf, O: Sink, E: Sink>(
    alloc: Global,
    words: &[String],
    shelf: &mut I,
    out: &mut O,
    err: &mut E,
) -> ViewStatus
    requires may { MayRead (I.may shelf.old) (file_of (spelled words.now)) }

    ensures theorem { Prints (Draws (file_of (spelled words.now)) (I.held shelf.old)) result
        (O.taken out.old) (O.taken out.new) }
    ensures usage { (result ≡ ViewStatus.Usage) ↔ IsNone (file_of (spelled words.now)) }
    ensures cause { ForSome (file_of (spelled words.now))
        (λ file. HasCause (I.held shelf.old file) result
        (Rose (I.faults shelf.old) (I.faults shelf.new)) (Rose (O.faults out.old) (O.faults out.new))) }
    ensures completes { ForSome (file_of (spelled words.now))
        (λ file. Completes (I.held shelf.old file) result
        (Rose (I.faults shelf.old) (I.faults shelf.new)) (Rose (O.faults out.old) (O.faults out.new))) }
    ensures assured { ForSome (file_of (spelled words.now))
        (λ file. IsAssured (I.held shelf.old file) result (I.never_fails shelf.old) (O.room_left out.old)) }
    ensures tells { Tells (status_line result) (E.taken err.old) (E.taken err.new)
        (Rose (E.faults err.old) (E.faults err.new)) }
{
    texts_have_one_picture();
    match view_in(words) {
        Some(view) => draw_file(alloc, &view, shelf, out, err),
        None => {
            tell(err, ViewStatus::Usage.line());
            ViewStatus::Usage
        }
    }
}

/// Ends a run that got no words: writes the line of its status on `err`. Words that are no text are a wrong use.
pub fn end_without_words<E: Sink>(why: WordsErr, err: &mut E) -> ViewStatus
    ensures status { result ≡ status_without_words why }
    ensures tells { Tells (status_line result) (E.taken err.old) (E.taken err.new)
        (Rose (E.faults err.old) (E.faults err.new)) }
{
    let status = match why {
        WordsErr::NoText => ViewStatus::Usage,
        WordsErr::Memory => ViewStatus::Memory,
    };
    tell(err, status.line());
    status
}
