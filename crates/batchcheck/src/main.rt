//! The program `batchcheck`: reads a job and a report, and prints that the report is a lawful one of the job, or what
//! it fails by first.
//!
//! `program::batchcheck` is the whole program over any shelf and sinks. Its theorem says that `lawful` is printed
//! exactly for the texts of lawful reports of the job, and a flaw exactly where it is the text's first. `check` reads
//! the two files and judges the text, `words` parses the command line, and `verdict` has the ends of a run with their
//! lines. `laws` states that the text of each lawful report has no flaw. `main` only hands in the real words, files and
//! streams.
//!
//! The crate stands on `job_lang`, which reads jobs, on `report_reader` and `report_check`, which read reports and look
//! for their flaws, and on `program_io`, which runs a program over its files.
#![tactic(auto)]

mod check;
pub mod laws;
pub mod program;
pub mod verdict;
mod words;

use bt_io::{StdShelf, StdSink};
use program::{batchcheck, end_without_words};
use program_io::words_behind_name;
use std::env;
use std::process::ExitCode;

fn main(rt: HostRuntime) -> ExitCode {
    let mut shelf = StdShelf::make(&rt);
    let mut out = StdSink::make(rt.stdout());
    let mut err = StdSink::make(rt.stderr());
    let verdict = match words_behind_name(rt.alloc(), env::args(&rt)) {
        Ok(words) => batchcheck(rt.alloc(), words.as_slice(), &mut shelf, &mut out, &mut err),
        Err(why) => end_without_words(why, &mut err),
    };
    ExitCode::from(verdict.number())
}
