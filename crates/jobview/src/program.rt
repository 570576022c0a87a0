//! The whole program: from the words and a shelf to what is shown.
ghost use Rattle.std.specs.Prelude.{◌≡◌, ◌↔◌, IsNone, IsTrue, IsSome};
ghost use Rattle.std.specs.Option.{ForSome};
ghost use Rattle.bt_io.specs.Causes.{Rose};
ghost use Rattle.program_io.specs.Lines.{Tells};
ghost use Rattle.jobview.specs.Words.{asked_by, spelled, MayRead};
ghost use Rattle.jobview.specs.Lines.{status_line, status_without_words};
ghost use Rattle.jobview.specs.Outcomes.{IsShown, Views, Prints, HasCause, Completes, IsAssured};
ghost use Rattle.jobview.specs.Code.{FailsPast};

use crate::laws::texts_have_one_view;
use crate::status::{ViewStatus, status_of};
use crate::words::{View, view_in};
use bt_io::{Shelf, Sink};
use job_lang::laws::texts_have_one_job_or_fault;
use program_io::{End, WordsErr, run_program, tell};
use std::alloc::Global;

/// Shows the job of a file on `out`, or writes the line that says why nothing is shown on `err`.
fn show_file<I: Shelf, O: Sink, E: Sink>(
    alloc: Global,
    view: &View<'_>,
    shelf: &mut I,
    out: &mut O,
    err: &mut E,
) -> ViewStatus
    requires { IsTrue (I.may shelf.old view.now.file.now) }
    ensures prints { Prints (IsShown view.now.form (I.held shelf.old view.now.file.now)) result
        (O.taken out.old) (O.taken out.new) }
    ensures cause { HasCause view.now.form (I.held shelf.old view.now.file.now) result
        (Rose (I.faults shelf.old) (I.faults shelf.new)) (Rose (O.faults out.old) (O.faults out.new)) }
    ensures reads { IsTrue (I.never_fails shelf.old)
        → IsSome (I.held shelf.old view.now.file.now)
        → result ≡ ViewStatus.ReadFault
        → ⊥ }
    ensures writes { FailsPast (IsShown view.now.form (I.held shelf.old view.now.file.now)) result
        (O.room_left out.old) }
    ensures tells { Tells (status_line result) (E.taken err.old) (E.taken err.new)
        (Rose (E.faults err.old) (E.faults err.new)) }
{
    let ran = run_program(alloc, view, shelf, out, err);
    match (ran.end, ran.told) {
        (End::Done, Some(())) => ViewStatus::Done,
        (End::Done, None) => unreachable!(),
        (End::Stopped(stop), _) => status_of(End::Stopped(stop)),
        (End::WriteFault, _) => ViewStatus::WriteFault,
    }
}

/// Runs the program on its words, over any shelf and sinks.
///
/// One word names the file of a job, whose leaves are shown, a row for each; behind the word `--text` it is the file of
/// a job whose canonical text is shown. A word that begins with `--` names no file. What is shown is written once, on
/// `out`, or the line that says why nothing is shown on `err`. Memory may run out at any step.
///
/// Time: that of reading the job, and linear in what is shown.
pub fn jobview<I: Shelf, O: Sink, E: Sink>(
    alloc: Global,
    words: &[String],
    shelf: &mut I,
    out: &mut O,
    err: &mut E,
) -> ViewStatus
    requires may { MayRead (I.may shelf.old) (asked_by (spelled words.now)) }

    ensures theorem { Prints (Views (asked_by (spelled words.now)) (I.held shelf.old)) result
        (O.taken out.old) (O.taken out.new) }
    ensures usage { (result ≡ ViewStatus.Usage) ↔ IsNone (asked_by (spelled words.now)) }
    ensures cause { ForSome (asked_by (spelled words.now))
        (λ asked. HasCause asked.form (I.held shelf.old asked.file) result
        (Rose (I.faults shelf.old) (I.faults shelf.new)) (Rose (O.faults out.old) (O.faults out.new))) }
    ensures completes { ForSome (asked_by (spelled words.now))
        (λ asked. Completes asked.form (I.held shelf.old asked.file) result
        (Rose (I.faults shelf.old) (I.faults shelf.new)) (Rose (O.faults out.old) (O.faults out.new))) }
    ensures assured { ForSome (asked_by (spelled words.now))
        (λ asked. IsAssured asked.form (I.held shelf.old asked.file) result
        (I.never_fails shelf.old) (O.room_left out.old)) }
    ensures tells { Tells (status_line result) (E.taken err.old) (E.taken err.new)
        (Rose (E.faults err.old) (E.faults err.new)) }
{
    texts_have_one_job_or_fault();
    texts_have_one_view();
    match view_in(words) {
        Some(view) => show_file(alloc, &view, shelf, out, err),
        None => {
            tell(err, ViewStatus::Usage.line());
            ViewStatus::Usage
        }
    }
}

/// Ends a run that got no words: writes the line of its status on `err`. Words that are no text are a wrong use.
pub fn end_without_words<E: Sink>(why: WordsErr, err: &mut E) -> ViewStatus
    ensures status { result ≡ status_without_words why }
    ensures tells { Tells (status_line result) (E.taken err.old) (E.taken err.new)
        (Rose (E.faults err.old) (E.faults err.new)) }
{
    let status = match why {
        WordsErr::NoText => ViewStatus::Usage,
        WordsErr::Memory => ViewStatus::Memory,
    };
    tell(err, status.line());
    status
}
