//! The counts of a file: it is read, its words are counted, and the lines of the counts are made.
ghost use Rattle.std.specs.Prelude.{◌≡◌, ◌≤◌, Err, IfOk, IfErr, IsTrue, IsSome};
ghost use Rattle.limits.specs.declared.TheConstants.{MOST_WORKERS};
ghost use Rattle.bt_io.specs.Causes.{Rose};
ghost use Rattle.word_counts.specs.Counts.{counts_of, lines_of};
ghost use Rattle.wordcount.specs.Outcomes.{AreCounts};
ghost use Rattle.wordcount.specs.Code.{StopsCounting};

use crate::status::CountStatus;
use crate::words::Count;
use bt_io::{ReadErr, Shelf};
use program_io::read_file;
use std::alloc::{AllocError, Global};
use std::sync::Wait;
use std::thread::Threads;
use word_counts::count_in_threads;

/// The most bytes that a file may have.
const MOST_BYTES: usize = 67_108_864;

/// The lines of the counts of a text.
fn counted<R: Wait + Threads + Sync>(
    rt: &R,
    alloc: Global,
    text: &[u8],
    threads: usize,
) -> Result<Vec<u8>, AllocError>
    requires threads { (1 ≤ threads) × (threads ≤ MOST_WORKERS) }
    ensures { IfOk result (λ lines. lines.items ≡ lines_of (counts_of text.now)) }
{
    let counts = count_in_threads(rt, alloc, text, threads)?;
    counts.text(alloc)
}

/// The lines of the counts of a file.
pub(crate) fn count_file<R: Wait + Threads + Sync, I: Shelf>(
    rt: &R,
    alloc: Global,
    count: &Count<'_>,
    shelf: &mut I,
) -> Result<Vec<u8>, CountStatus>
    requires may { IsTrue (I.may shelf.old count.now.file.now) }
    requires threads { (1 ≤ count.now.threads) × (count.now.threads ≤ MOST_WORKERS) }
    ensures ok { IfOk result (λ lines. AreCounts (I.held shelf.old count.now.file.now) lines.items) }
    ensures err { IfErr result (λ status. StopsCounting status (I.held shelf.old count.now.file.now)
        (Rose (I.faults shelf.old) (I.faults shelf.new))) }
    ensures sure { IsTrue (I.never_fails shelf.old)
        → IsSome (I.held shelf.old count.now.file.now)
        → result ≡ Err CountStatus.ReadFault
        → ⊥ }
{
    match read_file(alloc, shelf, count.file, MOST_BYTES) {
        Ok(text) => match counted(rt, alloc, text.as_slice(), count.threads) {
            Ok(lines) => Ok(lines),
            Err(AllocError) => Err(CountStatus::Memory),
        },
        Err(ReadErr::Failed) => Err(CountStatus::ReadFault),
        Err(ReadErr::TooLong) => Err(CountStatus::Refused),
        Err(ReadErr::Memory) => Err(CountStatus::Memory),
    }
}
