//! The program `wordcount`: counts the words of a file in threads that share one map, and prints the counts.
//!
//! `program::wordcount` is the whole program over any shelf and sinks. Its theorem says that a run that is done has
//! written exactly the counts of the words of the text that was read, counted one by one: those of one thread. `counts`
//! reads the file and counts its words, `words` parses the command line, and `status` has the ends of a run with their
//! lines. `main` only hands in the real words, files and streams.
//!
//! The crate stands on `word_counts`, which counts the words of a text, on `decimals`, which reads the number of
//! threads, and on `program_io`.
#![tactic(auto)]

mod counts;
pub mod program;
pub mod status;
mod words;

use bt_io::{StdShelf, StdSink};
use program::{end_without_words, wordcount};
use program_io::words_behind_name;
use std::env;
use std::process::ExitCode;

fn main(rt: HostRuntime) -> ExitCode {
    let mut shelf = StdShelf::make(&rt);
    let mut out = StdSink::make(rt.stdout());
    let mut err = StdSink::make(rt.stderr());
    let status = match words_behind_name(rt.alloc(), env::args(&rt)) {
        Ok(words) => wordcount(
            &rt,
            rt.alloc(),
            words.as_slice(),
            &mut shelf,
            &mut out,
            &mut err,
        ),
        Err(why) => end_without_words(why, &mut err),
    };
    ExitCode::from(status.number())
}
