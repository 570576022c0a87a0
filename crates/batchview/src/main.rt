//! The program `batchview`: reads a report, and writes its picture, an SVG document.
//!
//! `program::batchview` is the whole program over any shelf and sinks. Its theorem says that a run that is done has
//! written exactly the picture of the report that was read, by `picture` of `report_picture`. `draw` reads the file and
//! draws the report, `words` parses the command line, and `status` has the ends of a run with their lines. `main` only
//! hands in the real words, files and streams.
//!
//! The crate stands on `report_reader`, which reads reports, on `report_picture`, which draws them, and on
//! `program_io`, which runs a program over its file.
#![tactic(auto)]

mod draw;
pub mod program;
pub mod status;
mod words;

use bt_io::{StdShelf, StdSink};
use program::{batchview, end_without_words};
use program_io::words_behind_name;
use std::env;
use std::process::ExitCode;

fn main(rt: HostRuntime) -> ExitCode {
    let mut shelf = StdShelf::make(&rt);
    let mut out = StdSink::make(rt.stdout());
    let mut err = StdSink::make(rt.stderr());
    let status = match words_behind_name(rt.alloc(), env::args(&rt)) {
        Ok(words) => batchview(rt.alloc(), words.as_slice(), &mut shelf, &mut out, &mut err),
        Err(why) => end_without_words(why, &mut err),
    };
    ExitCode::from(status.number())
}
