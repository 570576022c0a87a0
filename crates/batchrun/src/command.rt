//! The command line: the words after the program's name, and the commands that they may be.
ghost use Rattle.std.specs.Prelude.{◌<◌, ◌≤◌, IsTrue};
ghost use Rattle.limits.specs.declared.TheConstants.{MOST_GENERATED, MOST_WORKERS};
ghost use Rattle.batchrun.specs.Words.{is_schedule};

mod parser;
mod schedule;

pub(crate) use self::parser::parse;

/// A `step` command: the workers take turns on one thread.
#[derive(Clone, Copy)]
pub(crate) struct StepCommand<'a> {
    pub(crate) file: &'a str,
    pub(crate) workers: u32,
    /// The workers of the first turns, one digit each.
    pub(crate) schedule: &'a str,
    ghost some_workers: { 0 < workers },
    ghost few_workers: { workers ≤ MOST_WORKERS },
    ghost schedule_is: { IsTrue (is_schedule workers schedule.now) },
}

/// A `run` command: each worker is a thread.
#[derive(Clone, Copy)]
pub(crate) struct RunCommand<'a> {
    pub(crate) file: &'a str,
    pub(crate) workers: u32,
    ghost some_workers: { 0 < workers },
    ghost few_workers: { workers ≤ MOST_WORKERS },
}

/// A `gen` command: runs a job generated from a size and a seed, with a thread for each worker.
#[derive(Clone, Copy)]
pub(crate) struct GenCommand {
    pub(crate) size: u32,
    pub(crate) seed: u64,
    pub(crate) workers: u32,
    ghost some_calls: { 0 < size },
    ghost few_calls: { size ≤ MOST_GENERATED },
    ghost some_workers: { 0 < workers },
    ghost few_workers: { workers ≤ MOST_WORKERS },
}

/// The command that the words are.
#[derive(Clone, Copy)]
pub(crate) enum Command<'a> {
    Step(StepCommand<'a>),
    Run(RunCommand<'a>),
    Gen(GenCommand),
}
