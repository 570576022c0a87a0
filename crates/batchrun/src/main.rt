//! The program: reads a job of work and calls, runs it, and prints what each leaf and each call did.
//!
//! `program::batchrun` is the whole program over any shelf and sinks, and carries the headline: a run that is done has
//! printed a lawful report. `program::run_step` does the work of a `step` command and waits for no thread; a `run` and
//! a `gen` command have a thread for each worker. Each call does one run, and tells how it ended. `main` only passes in
//! the real words, files and streams. The crate stands on all layers below it.
#![tactic(auto)]

pub mod command;
pub mod in_memory;
pub mod outcome;
pub mod program;
pub mod run;
pub mod status;

use bt_io::{Sink, StdShelf, StdSink};
use program::batchrun;
use program_io::{WordsErr, tell, words_behind_name};
use run_points::NoPause;
use status::Status;
use std::env;
use std::process::ExitCode;

/// Ends a run whose words could not be had, with the line of its status on err.
fn ended<E: Sink>(err: &mut E, status: Status) -> ExitCode {
    tell(err, status.line());
    ExitCode::from(status.number())
}

fn main(rt: HostRuntime) -> ExitCode {
    let mut shelf = StdShelf::make(&rt);
    let mut out = StdSink::make(rt.stdout());
    let mut err = StdSink::make(rt.stderr());
    let words = match words_behind_name(rt.alloc(), env::args(&rt)) {
        Ok(words) => words,
        Err(WordsErr::NoText) => return ended(&mut err, Status::Usage),
        Err(WordsErr::Memory) => return ended(&mut err, Status::Memory),
    };
    let outcome = batchrun(
        &rt,
        rt.alloc(),
        words.as_slice(),
        &mut shelf,
        &mut out,
        &mut err,
        &NoPause,
    );
    ExitCode::from(outcome.status.number())
}
