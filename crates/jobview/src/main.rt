//! The program `jobview`: reads a job, and writes where each of its leaves stands in the text and what it does, or the
//! canonical text of the job.
//!
//! `program::jobview` is the whole program over any shelf and sinks. Its theorem says that a run that is done has
//! written exactly the rows of the job that was read, by `rows_text` of `leaf_places`, or exactly its canonical text.
//! `show` reads the file and makes what is shown, `words` parses the command line, and `status` has the ends of a run
//! with their lines. `main` only hands in the real words, files and streams.
//!
//! The crate stands on `job_lang`, which reads jobs, on `leaf_places`, which says where their leaves stand, on
//! `job_writer`, which writes their texts, and on `program_io`, which runs a program over its file.
#![tactic(auto)]

pub mod laws;
pub mod program;
mod show;
pub mod status;
mod words;

use bt_io::{StdShelf, StdSink};
use program::{end_without_words, jobview};
use program_io::words_behind_name;
use std::env;
use std::process::ExitCode;

fn main(rt: HostRuntime) -> ExitCode {
    let mut shelf = StdShelf::make(&rt);
    let mut out = StdSink::make(rt.stdout());
    let mut err = StdSink::make(rt.stderr());
    let status = match words_behind_name(rt.alloc(), env::args(&rt)) {
        Ok(words) => jobview(rt.alloc(), words.as_slice(), &mut shelf, &mut out, &mut err),
        Err(why) => end_without_words(why, &mut err),
    };
    ExitCode::from(status.number())
}
