//! The program `bulkrun`: serves a script of batches whose calls carry many keys of a set each, and prints what each
//! call replied.
//!
//! `program::bulkrun` is the whole program over any shelf and sinks. Its theorem says that a run that is done has
//! printed what one thread prints that serves the calls one after another, although each batch is served by ranges of
//! keys, which threads may share. `call` parses the calls, and `server` serves a batch by `bulk_calls` and writes its
//! lines (`line`). `main` only hands in the real words, files and streams.
//!
//! The crate stands on `batch_script`, which reads scripts and carries the causes of each status, and `bulk_calls`.
#![tactic(auto)]

mod call;
mod line;
pub mod program;
mod server;

use batch_script::end_without_words;
use bt_io::{StdShelf, StdSink};
use program::{NAME, USAGE, bulkrun};
use program_io::words_behind_name;
use std::env;
use std::process::ExitCode;

fn main(rt: HostRuntime) -> ExitCode {
    let mut shelf = StdShelf::make(&rt);
    let mut out = StdSink::make(rt.stdout());
    let mut err = StdSink::make(rt.stderr());
    let status = match words_behind_name(rt.alloc(), env::args(&rt)) {
        Ok(words) => bulkrun(
            &rt,
            rt.alloc(),
            words.as_slice(),
            &mut shelf,
            &mut out,
            &mut err,
        ),
        Err(why) => end_without_words(why, NAME, USAGE, &mut err),
    };
    ExitCode::from(status.number())
}
