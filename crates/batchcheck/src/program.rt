//! The whole program: from the words and a shelf to the verdict.
ghost use Rattle.std.specs.Prelude.{◌≡◌, ◌↔◌, ◌<◌, IsNone, IsTrue};
ghost use Rattle.std.specs.Option.{ForSome};
ghost use Rattle.bt_io.specs.Causes.{Rose};
ghost use Rattle.program_io.specs.Lines.{Tells};
ghost use Rattle.batchcheck.specs.Words.{files_of, spelled, MayRead};
ghost use Rattle.batchcheck.specs.Lines.{verdict_line, verdict_without_words};
ghost use Rattle.batchcheck.specs.Outcomes.{IsJudged, Judges, Prints, HasCause, Completes, IsAssured};
ghost use Rattle.batchcheck.specs.Code.{files_in, AreHeld, FailsPast};

use crate::laws::{accepted_jobs_have_one_flaw, lawful_texts_have_no_flaw};
use crate::verdict::{Verdict, stopped};
use crate::words::{Check, check_in};
use bt_io::{Shelf, Sink};
use job_lang::laws::texts_have_one_job_or_fault;
use program_io::{End, WordsErr, run_program, tell};
use std::alloc::Global;

/// Checks the report of one file against the job of another, and writes the verdict on `out`, or the line that says why
/// there is none on `err`.
fn check_files<I: Shelf, O: Sink, E: Sink>(
    alloc: Global,
    check: &Check<'_>,
    shelf: &mut I,
    out: &mut O,
    err: &mut E,
) -> Verdict
    requires may_job { IsTrue (I.may shelf.old check.now.job.now) }
    requires may_report { IsTrue (I.may shelf.old check.now.report.now) }
    ensures prints { Prints (IsJudged (files_in check.now) (I.held shelf.old)) result
        (O.taken out.old) (O.taken out.new) }
    ensures cause { HasCause (files_in check.now) (I.held shelf.old) result
        (Rose (I.faults shelf.old) (I.faults shelf.new)) (Rose (O.faults out.old) (O.faults out.new)) }
    ensures reads { IsTrue (I.never_fails shelf.old)
        → AreHeld (files_in check.now) (I.held shelf.old)
        → result ≡ Verdict.ReadFault
        → ⊥ }
    ensures writes { FailsPast (IsJudged (files_in check.now) (I.held shelf.old)) result (O.room_left out.old) }
    ensures tells { Tells (verdict_line result) (E.taken err.old) (E.taken err.new)
        (Rose (E.faults err.old) (E.faults err.new)) }
{
    let ran = run_program(alloc, check, shelf, out, err);
    match (ran.end, ran.told) {
        (End::Done, Some(None)) => Verdict::Lawful,
        (End::Done, Some(Some(flaw))) => Verdict::Flawed(flaw),
        (End::Done, None) => unreachable!(),
        (End::Stopped(stop), _) => stopped(stop),
        (End::WriteFault, _) => Verdict::WriteFault,
    }
}

/// Runs the program on its words, over any shelf and sinks.
///
/// The words name a job's file and a report's. The report is read once the job is accepted, and its flaw is the first
/// part of what makes it lawful that it does not keep. One line is written, on `out` or on `err`. Memory may run out at
/// any step.
///
/// Time: that of reading the job, and linear in the report, but that calls of the tree and the queue are served in
/// logarithmic time.
pub fn batchcheck<I: Shelf, O: Sink, E: Sink>(
    alloc: Global,
    words: &[String],
    shelf: &mut I,
    out: &mut O,
    err: &mut E,
) -> Verdict
    requires may { MayRead (I.may shelf.old) (files_of (spelled words.now)) }

    ensures theorem { Prints (Judges (files_of (spelled words.now)) (I.held shelf.old)) result
        (O.taken out.old) (O.taken out.new) }
    ensures usage { (result ≡ Verdict.Usage) ↔ IsNone (files_of (spelled words.now)) }
    ensures cause { ForSome (files_of (spelled words.now))
        (λ files. HasCause files (I.held shelf.old) result
        (Rose (I.faults shelf.old) (I.faults shelf.new)) (Rose (O.faults out.old) (O.faults out.new))) }
    ensures completes { ForSome (files_of (spelled words.now))
        (λ files. Completes files (I.held shelf.old) result
        (Rose (I.faults shelf.old) (I.faults shelf.new)) (Rose (O.faults out.old) (O.faults out.new))) }
    ensures assured { ForSome (files_of (spelled words.now))
        (λ files. IsAssured files (I.held shelf.old) result (I.never_fails shelf.old) (O.room_left out.old)) }
    ensures tells { Tells (verdict_line result) (E.taken err.old) (E.taken err.new)
        (Rose (E.faults err.old) (E.faults err.new)) }
{
    texts_have_one_job_or_fault();
    accepted_jobs_have_one_flaw();
    lawful_texts_have_no_flaw();
    match check_in(words) {
        Some(check) => check_files(alloc, &check, shelf, out, err),
        None => {
            tell(err, Verdict::Usage.line());
            Verdict::Usage
        }
    }
}

/// Ends a run that got no words: writes the line of its verdict on `err`. Words that are no text are a wrong use.
pub fn end_without_words<E: Sink>(why: WordsErr, err: &mut E) -> Verdict
    ensures verdict { result ≡ verdict_without_words why }
    ensures tells { Tells (verdict_line result) (E.taken err.old) (E.taken err.new)
        (Rose (E.faults err.old) (E.faults err.new)) }
{
    let verdict = match why {
        WordsErr::NoText => Verdict::Usage,
        WordsErr::Memory => Verdict::Memory,
    };
    tell(err, verdict.line());
    verdict
}
