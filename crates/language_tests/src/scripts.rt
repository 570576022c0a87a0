//! The run of a program over scripts, where the words, the shelf or a sink fail.
ghost use Rattle.std.specs.Prelude.{true, false};
ghost use Rattle.language_tests.specs.Tellers.{word_call, told};

use batch_script::{Form, Name, Serves, run_script};
use bt_io::{MemShelf, MemSink};
use std::alloc::{AllocError, Global};
use std::test::Fail;
use std::thread::Threads;
use test_rows::{all_hold, files_of, words_of};

/// Serves batches of calls of one word, and tells the first of them from the later ones.
#[derive(Drop)]
struct Teller {
    has_served: bool,
}

impl Form for Teller {
    type Call = usize;

    ghost call_of = { word_call };

    fn call_of(words: &[Name]) -> Option<usize> {
        match words {
            [word] => Some(word.bytes().len()),
            _ => None,
        }
    }
}

impl Serves for Teller {
    type State = bool;

    ghost state = { λ teller. teller.has_served };

    ghost opening = { false };

    ghost after = { λ _ _. true };

    ghost lines = { λ _ has_served _. told has_served };

    fn open(_alloc: Global) -> Result<Teller, AllocError> {
        Ok(Teller { has_served: false })
    }

    fn serve<R: Threads + Sync>(
        self,
        _rt: &R,
        _alloc: Global,
        _number: u32,
        _calls: &[usize],
        text: &mut String,
    ) -> Result<Teller, AllocError> {
        text.push_str(if self.has_served {
            "later\n"
        } else {
            "first\n"
        })?;
        Ok(Teller { has_served: true })
    }
}

/// A script of two batches, and a text that is none. The shelf gives at most four bytes a call.
const FILES: &[(&str, &[u8])] = &[("-", b"a\nb\ngo\nc\n"), ("bad", b"a\na b\n")];

const USAGE: &[u8] = b"teller: usage: teller FILE\n";

const READ_FAULT: &[u8] = b"teller: read fault\n";

const WRITE_FAULT: &[u8] = b"teller: write fault\n";

/// A call that is never made.
const NONE: u64 = 99;

/// The words of a run, the call of the shelf, of out and of err that fails, the exit number, and what out and err took.
/// Call 0 of the shelf chooses the file. Out takes at most five bytes a call; err takes the parts of its line one a call.
type Run = (
    &'static [&'static str],
    u64,
    u64,
    u64,
    u8,
    &'static [u8],
    &'static [u8],
);

const RUNS: &[Run] = &[
    (&[], NONE, NONE, NONE, 2, b"", USAGE),
    (&[""], NONE, NONE, NONE, 2, b"", USAGE),
    (&["-", "-"], NONE, NONE, NONE, 2, b"", USAGE),
    (&["missing"], NONE, NONE, NONE, 3, b"", READ_FAULT),
    (
        &["bad"],
        NONE,
        NONE,
        NONE,
        4,
        b"",
        b"teller: line 2: not a call\n",
    ),
    (&["-"], NONE, NONE, NONE, 0, b"first\nlater\n", b""),
    (&["-"], 0, NONE, NONE, 3, b"", READ_FAULT),
    (&["-"], 1, NONE, NONE, 3, b"", READ_FAULT),
    (&["-"], 2, NONE, NONE, 3, b"", READ_FAULT),
    (&["-"], 3, NONE, NONE, 3, b"", READ_FAULT),
    (&["-"], 4, NONE, NONE, 3, b"", READ_FAULT),
    (&["-"], 5, NONE, NONE, 0, b"first\nlater\n", b""),
    (&["-"], NONE, 0, NONE, 5, b"", WRITE_FAULT),
    (&["-"], NONE, 1, NONE, 5, b"first", WRITE_FAULT),
    (&["-"], NONE, 2, NONE, 5, b"first\nlate", WRITE_FAULT),
    (&["-"], NONE, 3, NONE, 0, b"first\nlater\n", b""),
    (&[], NONE, NONE, 0, 2, b"", b""),
    (&["-"], 1, NONE, 1, 3, b"", b"teller"),
    (&["bad"], NONE, NONE, 2, 4, b"", b"teller: "),
    (&["-"], NONE, 1, 0, 5, b"first", b""),
    (&["-"], NONE, NONE, 0, 0, b"first\nlater\n", b""),
];

/// Whether a run ends so.
fn ends_so<R: Threads + Sync>(rt: &R, alloc: Global, row: &Run) -> Result<bool, AllocError> {
    let (words, read, write, tell, number, lines, line) = *row;
    let words = words_of(alloc, words)?;
    let mut shelf = MemShelf::make(files_of(alloc, FILES)?, 4, vec![in alloc; read]?);
    let mut out = MemSink::make(alloc, 99, 5, vec![in alloc; write]?)?;
    let mut err = MemSink::make(alloc, 99, 99, vec![in alloc; tell]?)?;
    let status = run_script::<R, Teller, MemShelf, MemSink, MemSink>(
        rt,
        alloc,
        b"teller",
        b"usage: teller FILE",
        words.as_slice(),
        &mut shelf,
        &mut out,
        &mut err,
    );
    Ok(status.number() == number && out.bytes() == lines && err.bytes() == line)
}

/// The place of the first run that ends otherwise, if there is one.
fn first_ending_otherwise<R: Threads + Sync>(
    rt: &R,
    alloc: Global,
) -> Result<Option<usize>, AllocError> {
    for (place, row) in RUNS.iter().enumerate() {
        if !ends_so(rt, alloc, row)? {
            return Ok(Some(place));
        }
    }
    Ok(None)
}

#[test]
fn a_program_over_scripts_ends_so(rt: HostRuntime) -> Result<(), Fail> {
    all_hold(first_ending_otherwise(&rt, rt.alloc())?)
}
