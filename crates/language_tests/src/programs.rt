//! A program over two files, in each way in which it ends.
ghost use Rattle.std.specs.Prelude.{◌≡◌, ◌<◌, ◌≤◌, ◌^◌, Err, IsSome, IfOk, IfErr, IsTrue, codes};
ghost use Rattle.bt_io.specs.Causes.{Rose};
ghost use Rattle.program_io.specs.Ends.{StopCause};
ghost use Rattle.program_io.specs.Lines.{told_text};

use bt_io::{MemShelf, MemSink, ReadErr, Shelf};
use decimals::decimal_in;
use program_io::{End, Line, Program, Stop, read_file, run_program};
use std::alloc::{AllocError, Global};
use std::test::Fail;
use test_rows::{all_hold, files_of};

/// Why a file gives no number.
#[derive(Clone, Copy)]
enum Refusal {
    TooLong,
    NoNumber,
}

/// Tells the greater of the numbers that two files hold, which have at most three bytes each.
#[derive(Clone, Copy)]
struct Greater<'a> {
    first: &'a str,
    second: &'a str,
}

/// The number that a file holds.
fn read_number<I: Shelf>(alloc: Global, shelf: &mut I, file: &str) -> Result<u64, Stop<Refusal>>
    requires { IsTrue (I.may shelf.old file.now) }
    ensures err { IfErr result (λ stop. StopCause stop (λ _. Unit {0}) (Rose (I.faults shelf.old) (I.faults shelf.new))) }
    ensures sure { IsTrue (I.never_fails shelf.old) → IsSome (I.held shelf.old file.now) → result ≡ Err Stop.ReadFault → ⊥ }
    ensures later { I.faults shelf.old ≤ I.faults shelf.new }
    ensures may { I.may shelf.new ≡ I.may shelf.old }
    ensures held { I.held shelf.new ≡ I.held shelf.old }
    ensures never_fails { IsTrue (I.never_fails shelf.old) → IsTrue (I.never_fails shelf.new) }
{
    match read_file(alloc, shelf, file, 3) {
        Ok(bytes) => match decimal_in(bytes.as_slice()) {
            Some(number) => Ok(number),
            None => Err(Stop::Refused(Refusal::NoNumber)),
        },
        Err(ReadErr::Failed) => Err(Stop::ReadFault),
        Err(ReadErr::TooLong) => Err(Stop::Refused(Refusal::TooLong)),
        Err(ReadErr::Memory) => Err(Stop::Memory),
    }
}

impl<'a> Program for Greater<'a> {
    type Told = u64;

    type Refusal = Refusal;

    ghost may_read = { λ s may. IsTrue (may s.first.now) × IsTrue (may s.second.now) };

    ghost are_held = { λ s held. IsSome (held s.first.now) × IsSome (held s.second.now) };

    ghost answers = { λ _ _ _ _. Unit {0} };

    ghost refuses = { λ _ _ _. Unit {0} };

    ghost line = { λ _ _. codes "greater: ended\n" };

    fn answer<I: Shelf>(
        &self,
        alloc: Global,
        shelf: &mut I,
    ) -> Result<(u64, Vec<u8>), Stop<Refusal>> {
        let first = read_number(alloc, shelf, self.first)?;
        let second = read_number(alloc, shelf, self.second)?;
        let greater = first.max(second);
        match format!(in alloc; "{greater}\n") {
            Ok(line) => Ok((greater, line.into_bytes())),
            Err(_) => Err(Stop::Memory),
        }
    }

    fn line_of(&self, _end: End<Refusal>) -> Option<Line<'static>>
        ensures { told_text result ≡ codes "greater: ended\n" }
    {
        Some(Line {
            program: b"greater",
            number: None,
            words: b"ended",
        })
    }
}

/// A call that is never made.
const NONE: u64 = 99;

/// The second file, the call of the shelf, of out and of err that fails, how the run ends, and what out and err took. Calls
/// 0 and 3 of the shelf choose a file; each other one, and each call of out, moves at most one byte. Err takes the parts of
/// its line one a call.
type Run = (
    &'static [u8],
    u64,
    u64,
    u64,
    u8,
    &'static [u8],
    &'static [u8],
);

const ENDED: &[u8] = b"greater: ended\n";

const RUNS: &[Run] = &[
    (b"12", NONE, NONE, NONE, 0, b"12\n", ENDED),
    (b"1", NONE, NONE, NONE, 0, b"7\n", ENDED),
    (b"123", NONE, NONE, NONE, 0, b"123\n", ENDED),
    (b"1234", NONE, NONE, NONE, 4, b"", ENDED),
    (b"012", NONE, NONE, NONE, 5, b"", ENDED),
    (b"12", 0, NONE, NONE, 3, b"", ENDED),
    (b"12", 1, NONE, NONE, 3, b"", ENDED),
    (b"12", 2, NONE, NONE, 3, b"", ENDED),
    (b"12", 3, NONE, NONE, 3, b"", ENDED),
    (b"12", 4, NONE, NONE, 3, b"", ENDED),
    (b"12", 5, NONE, NONE, 3, b"", ENDED),
    (b"12", 6, NONE, NONE, 3, b"", ENDED),
    (b"12", 7, NONE, NONE, 0, b"12\n", ENDED),
    (b"12", NONE, 0, NONE, 6, b"", ENDED),
    (b"12", NONE, 1, NONE, 6, b"1", ENDED),
    (b"12", NONE, 2, NONE, 6, b"12", ENDED),
    (b"12", NONE, 3, NONE, 0, b"12\n", ENDED),
    (b"12", NONE, NONE, 0, 0, b"12\n", b""),
    (b"12", 1, NONE, 1, 3, b"", b"greater"),
    (b"1234", NONE, NONE, 2, 4, b"", b"greater: "),
    (b"12", NONE, 1, 3, 6, b"1", b"greater: ended"),
];

/// A number for each way in which a run ends.
fn number_of(end: End<Refusal>) -> u8 {
    match end {
        End::Done => 0,
        End::Stopped(Stop::ReadFault) => 3,
        End::Stopped(Stop::Refused(Refusal::TooLong)) => 4,
        End::Stopped(Stop::Refused(Refusal::NoNumber)) => 5,
        End::Stopped(Stop::Memory) => 7,
        End::WriteFault => 6,
    }
}

/// The shelf of the files `a`, which holds 7, and `b`, where one call fails.
fn shelf_of(alloc: Global, second: &[u8], fails: u64) -> Result<MemShelf, AllocError> {
    let files = files_of(alloc, &[("a", b"7"), ("b", second)])?;
    Ok(MemShelf::make(files, 1, vec![in alloc; fails]?))
}

/// Whether a run ends so. It tells a number where it has one, and ends by a line to err in any case.
fn ends_so(alloc: Global, row: &Run) -> Result<bool, AllocError> {
    let (second, read, write, tell, number, taken, line) = *row;
    let program = Greater {
        first: "a",
        second: "b",
    };
    let mut shelf = shelf_of(alloc, second, read)?;
    let mut out = MemSink::make(alloc, 9, 1, vec![in alloc; write]?)?;
    let mut err = MemSink::make(alloc, 99, 99, vec![in alloc; tell]?)?;
    let ran = run_program(alloc, &program, &mut shelf, &mut out, &mut err);
    let tells = number == 0 || number == 6;
    Ok(
        number_of(ran.end) == number
            && ran.told.is_some() == tells
            && out.bytes() == taken
            && err.bytes() == line,
    )
}

/// The place of the first run that ends otherwise, if there is one.
fn first_ending_otherwise(alloc: Global) -> Result<Option<usize>, AllocError> {
    for (place, row) in RUNS.iter().enumerate() {
        if !ends_so(alloc, row)? {
            return Ok(Some(place));
        }
    }
    Ok(None)
}

#[test]
fn a_program_over_two_files_ends_so(rt: HostRuntime) -> Result<(), Fail> {
    all_hold(first_ending_otherwise(rt.alloc())?)
}
