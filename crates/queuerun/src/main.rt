//! The program `queuerun`: serves a script of batches of puts and gets of a FIFO queue, and prints each reply.
//!
//! `program::queuerun` is the whole program over any shelf and sinks. Its theorem says that a run that is done has
//! printed what one thread prints that serves the calls one after another, although each batch is served in stripes.
//! `call` parses the calls, and `server` serves a batch by `batched_queue` and writes its lines (`line`). `main` only
//! hands in the real words, files and streams.
//!
//! The crate stands on `batch_script`, which reads scripts and carries the causes of each status, and `batched_queue`.
#![tactic(auto)]

mod call;
mod line;
pub mod program;
mod server;

use batch_script::end_without_words;
use bt_io::{StdShelf, StdSink};
use program::{NAME, USAGE, queuerun};
use program_io::words_behind_name;
use std::env;
use std::process::ExitCode;

fn main(rt: HostRuntime) -> ExitCode {
    let mut shelf = StdShelf::make(&rt);
    let mut out = StdSink::make(rt.stdout());
    let mut err = StdSink::make(rt.stderr());
    let status = match words_behind_name(rt.alloc(), env::args(&rt)) {
        Ok(words) => queuerun(
            &rt,
            rt.alloc(),
            words.as_slice(),
            &mut shelf,
            &mut out,
            &mut err,
        ),
        Err(why) => end_without_words(why, NAME, USAGE, &mut err),
    };
    ExitCode::from(status.number())
}
