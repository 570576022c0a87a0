//! The whole program: from the words and a shelf to the counts.
ghost use Rattle.std.specs.Prelude.{◌≡◌, ◌↔◌, ◌≤◌, IsNone, IsTrue, IsSome};
ghost use Rattle.std.specs.Option.{ForSome};
ghost use Rattle.limits.specs.declared.TheConstants.{MOST_WORKERS};
ghost use Rattle.bt_io.specs.Causes.{Rose};
ghost use Rattle.program_io.specs.Lines.{Tells};
ghost use Rattle.wordcount.specs.Words.{file_of, spelled, MayRead};
ghost use Rattle.wordcount.specs.Lines.{status_line, status_without_words};
ghost use Rattle.wordcount.specs.Outcomes.{AreCounts, Counts, Prints, HasCause, Completes, IsAssured};
ghost use Rattle.wordcount.specs.Code.{FailsPast};

use crate::counts::count_file;
use crate::status::CountStatus;
use crate::words::{Count, count_in};
use bt_io::{Failed, Shelf, Sink, write_all};
use program_io::{WordsErr, tell};
use std::alloc::Global;
use std::sync::Wait;
use std::thread::Threads;

/// Counts the words of a file, and writes the counts on `out`.
fn write_counts<R: Wait + Threads + Sync, I: Shelf, O: Sink>(
    rt: &R,
    alloc: Global,
    count: &Count<'_>,
    shelf: &mut I,
    out: &mut O,
) -> CountStatus
    requires may { IsTrue (I.may shelf.old count.now.file.now) }
    requires threads { (1 ≤ count.now.threads) × (count.now.threads ≤ MOST_WORKERS) }
    ensures prints { Prints (AreCounts (I.held shelf.old count.now.file.now)) result
        (O.taken out.old) (O.taken out.new) }
    ensures cause { HasCause (I.held shelf.old count.now.file.now) result
        (Rose (I.faults shelf.old) (I.faults shelf.new)) (Rose (O.faults out.old) (O.faults out.new)) }
    ensures reads { IsTrue (I.never_fails shelf.old)
        → IsSome (I.held shelf.old count.now.file.now)
        → result ≡ CountStatus.ReadFault
        → ⊥ }
    ensures writes { FailsPast (AreCounts (I.held shelf.old count.now.file.now)) result (O.room_left out.old) }
{
    match count_file(rt, alloc, count, shelf) {
        Ok(lines) => match write_all(out, lines.as_slice()) {
            Ok(()) => CountStatus::Done,
            Err(Failed) => CountStatus::WriteFault,
        },
        Err(status) => status,
    }
}

/// Runs the program on its words, over any shelf and sinks.
///
/// The first word names a file, the second is the number of threads, which wait for one another. The counts are written
/// once, on `out`, or the line that says why there are none on `err`. Memory may run out at any step.
///
/// Time: linear in the text, and for each word logarithmic in the different words.
pub fn wordcount<R: Wait + Threads + Sync, I: Shelf, O: Sink, E: Sink>(
    rt: &R,
    alloc: Global,
    words: &[String],
    shelf: &mut I,
    out: &mut O,
    err: &mut E,
) -> CountStatus
    requires may { MayRead (I.may shelf.old) (file_of (spelled words.now)) }

    ensures theorem { Prints (Counts (file_of (spelled words.now)) (I.held shelf.old)) result
        (O.taken out.old) (O.taken out.new) }
    ensures usage { (result ≡ CountStatus.Usage) ↔ IsNone (file_of (spelled words.now)) }
    ensures cause { ForSome (file_of (spelled words.now))
        (λ file. HasCause (I.held shelf.old file) result
        (Rose (I.faults shelf.old) (I.faults shelf.new)) (Rose (O.faults out.old) (O.faults out.new))) }
    ensures completes { ForSome (file_of (spelled words.now))
        (λ file. Completes (I.held shelf.old file) result
        (Rose (I.faults shelf.old) (I.faults shelf.new)) (Rose (O.faults out.old) (O.faults out.new))) }
    ensures assured { ForSome (file_of (spelled words.now))
        (λ file. IsAssured (I.held shelf.old file) result (I.never_fails shelf.old) (O.room_left out.old)) }
    ensures tells { Tells (status_line result) (E.taken err.old) (E.taken err.new)
        (Rose (E.faults err.old) (E.faults err.new)) }
{
    let status = match count_in(words) {
        Some(count) => write_counts(rt, alloc, &count, shelf, out),
        None => CountStatus::Usage,
    };
    tell(err, status.line());
    status
}

/// Ends a run that got no words: writes the line of its status on `err`. Words that are no text are a wrong use.
pub fn end_without_words<E: Sink>(why: WordsErr, err: &mut E) -> CountStatus
    ensures status { result ≡ status_without_words why }
    ensures tells { Tells (status_line result) (E.taken err.old) (E.taken err.new)
        (Rose (E.faults err.old) (E.faults err.new)) }
{
    let status = match why {
        WordsErr::NoText => CountStatus::Usage,
        WordsErr::Memory => CountStatus::Memory,
    };
    tell(err, status.line());
    status
}
