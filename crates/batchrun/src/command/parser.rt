//! The parser: which command the words are.
ghost use Rattle.std.specs.Prelude.{◌≡◌};
ghost use Rattle.std.specs.Option.{option_map};
ghost use Rattle.batchrun.specs.Words.{command_of, spelled, step_command, run_command, gen_command, short_command, long_command, workers_in, size_in};
ghost use Rattle.batchrun.specs.Code.Commands.{command_in, step_in, run_in, gen_in};

use crate::command::schedule::is_schedule;
use crate::command::{Command, GenCommand, RunCommand, StepCommand};
use decimals::number_between;
use limits::{MOST_GENERATED, MOST_WORKERS};

/// The number of workers that a word gives.
fn workers_asked(word: &str) -> Option<u32>
    ensures { result ≡ workers_in word.now }
{
    number_between(word.as_bytes(), 1, u64::from(MOST_WORKERS)).map(|workers| workers as u32)
}

/// The size of a generated job that a word gives, from 1 to `MOST_GENERATED`.
fn size_asked(word: &str) -> Option<u32>
    ensures { result ≡ size_in word.now }
{
    number_between(word.as_bytes(), 1, u64::from(MOST_GENERATED)).map(|size| size as u32)
}

/// The `step` command of these words, if they are one.
fn parse_step<'a>(file: &'a str, workers: &str, schedule: &'a str) -> Option<StepCommand<'a>>
    ensures { option_map step_in result ≡ step_command file.now workers.now schedule.now }
{
    if file == "" {
        return None;
    }
    let workers = workers_asked(workers)?;
    if !is_schedule(schedule.as_bytes(), workers) {
        return None;
    }
    Some(StepCommand {
        file,
        workers,
        schedule,
    })
}

/// The `run` command of these words, if they are one.
fn parse_run<'a>(file: &'a str, workers: &str) -> Option<RunCommand<'a>>
    ensures { option_map run_in result ≡ run_command file.now workers.now }
{
    if file == "" {
        return None;
    }
    let workers = workers_asked(workers)?;
    Some(RunCommand { file, workers })
}

/// The `gen` command of these words, if they are one.
fn parse_gen(size: &str, seed: &str, workers: &str) -> Option<GenCommand>
    ensures { option_map gen_in result ≡ gen_command size.now seed.now workers.now }
{
    let size = size_asked(size)?;
    let seed = number_between(seed.as_bytes(), 0, u64::MAX)?;
    let workers = workers_asked(workers)?;
    Some(GenCommand {
        size,
        seed,
        workers,
    })
}

/// The command of three words, if they are one.
fn parse_short<'a>(name: &str, file: &'a str, workers: &str) -> Option<Command<'a>>
    ensures { option_map command_in result ≡ short_command name.now file.now workers.now }
{
    match name {
        "step" => parse_step(file, workers, "").map(Command::Step),
        "run" => parse_run(file, workers).map(Command::Run),
        _ => None,
    }
}

/// The command of four words, if they are one.
fn parse_long<'a>(name: &str, first: &'a str, second: &str, third: &'a str) -> Option<Command<'a>>
    ensures { option_map command_in result ≡ long_command name.now first.now second.now third.now }
{
    match name {
        "step" => parse_step(first, second, third).map(Command::Step),
        "gen" => {
            let command = parse_gen(first, second, third)?;
            Some(Command::Gen(command))
        }
        _ => None,
    }
}

/// The command that the words are, if they are one. It takes no memory.
pub(crate) fn parse(words: &[String]) -> Option<Command<'_>>
    ensures { option_map command_in result ≡ command_of (spelled words.now) }
{
    match words {
        [name, first, second] => parse_short(name.as_str(), first.as_str(), second.as_str()),
        [name, first, second, third] => parse_long(
            name.as_str(),
            first.as_str(),
            second.as_str(),
            third.as_str(),
        ),
        _ => None,
    }
}
