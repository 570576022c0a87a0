//! The whole program: from the words and a shelf to what is printed.
ghost use Rattle.std.specs.Prelude.{◌≡◌, ◌↔◌, Some, IsNone};
ghost use Rattle.std.specs.Option.{ForSome};
ghost use Rattle.bt_io.specs.Causes.{Rose};
ghost use Rattle.program_io.specs.Lines.{Tells};
ghost use Rattle.batchrun.specs.Words.{command_of, spelled, IsStep};
ghost use Rattle.batchrun.specs.Lines.{fault_line};
ghost use Rattle.batchrun.specs.Outcomes.{Prints};
ghost use Rattle.batchrun.specs.Commands.{MayRead, Runs, Owes, PrintsSummary};
ghost use Rattle.batchrun.specs.Code.Commands.{command_in, step_in};
ghost use Rattle.batchrun.specs.Code.Runs.{IsRun};

mod input;
mod output;
mod runs;

use self::runs::{run_file, run_made, step_file};
use crate::command::{Command, StepCommand, parse};
use crate::outcome::Outcome;
use crate::status::Status;
use bt_io::{Shelf, Sink};
use job_lang::laws::texts_have_one_job_or_fault;
use program_io::tell;
use run_points::Pause;
use std::alloc::Global;
use std::sync::Wait;
use std::thread::Threads;

/// Runs a `step` command.
fn step<I: Shelf, O: Sink>(
    alloc: Global,
    command: &StepCommand<'_>,
    shelf: &mut I,
    out: &mut O,
) -> Outcome
    requires may { MayRead (I.may shelf.old) (Some (step_in command.now)) }
    ensures { IsRun (Some (step_in command.now)) (I.held shelf.old) result.status result.report
        (O.taken out.old) (O.taken out.new)
        (Rose (I.faults shelf.old) (I.faults shelf.new)) (Rose (O.faults out.old) (O.faults out.new))
        (I.never_fails shelf.old) (O.room_left out.old) }
{
    texts_have_one_job_or_fault();
    step_file(alloc, command, shelf, out)
}

/// Runs a command.
fn run_command<R: Threads + Wait + Sync, I: Shelf, O: Sink, G: Pause + Sync>(
    rt: &R,
    alloc: Global,
    command: &Command<'_>,
    shelf: &mut I,
    out: &mut O,
    pause: &G,
) -> Outcome
    requires may { MayRead (I.may shelf.old) (Some (command_in command.now)) }
    ensures { IsRun (Some (command_in command.now)) (I.held shelf.old) result.status result.report
        (O.taken out.old) (O.taken out.new)
        (Rose (I.faults shelf.old) (I.faults shelf.new)) (Rose (O.faults out.old) (O.faults out.new))
        (I.never_fails shelf.old) (O.room_left out.old) }
{
    texts_have_one_job_or_fault();
    match command {
        Command::Step(command) => step(alloc, command, shelf, out),
        Command::Run(command) => run_file(rt, alloc, command, shelf, out, pause),
        Command::Gen(command) => run_made(rt, alloc, command, out, pause),
    }
}

/// Runs the command that the words are, if they are one.
fn run_words<R: Threads + Wait + Sync, I: Shelf, O: Sink, G: Pause + Sync>(
    rt: &R,
    alloc: Global,
    words: &[String],
    shelf: &mut I,
    out: &mut O,
    pause: &G,
) -> Outcome
    requires may { MayRead (I.may shelf.old) (command_of (spelled words.now)) }
    ensures { IsRun (command_of (spelled words.now)) (I.held shelf.old) result.status result.report
        (O.taken out.old) (O.taken out.new)
        (Rose (I.faults shelf.old) (I.faults shelf.new)) (Rose (O.faults out.old) (O.faults out.new))
        (I.never_fails shelf.old) (O.room_left out.old) }
{
    match parse(words) {
        Some(command) => run_command(rt, alloc, &command, shelf, out, pause),
        None => Outcome::stopped(Status::Usage),
    }
}

/// Runs the `step` command that the words are.
fn step_words<I: Shelf, O: Sink>(
    alloc: Global,
    words: &[String],
    shelf: &mut I,
    out: &mut O,
) -> Outcome
    requires command { IsStep (command_of (spelled words.now)) }
    requires may { MayRead (I.may shelf.old) (command_of (spelled words.now)) }
    ensures { IsRun (command_of (spelled words.now)) (I.held shelf.old) result.status result.report
        (O.taken out.old) (O.taken out.new)
        (Rose (I.faults shelf.old) (I.faults shelf.new)) (Rose (O.faults out.old) (O.faults out.new))
        (I.never_fails shelf.old) (O.room_left out.old) }
{
    match parse(words) {
        Some(Command::Step(command)) => step(alloc, &command, shelf, out),
        _ => unreachable!(),
    }
}

/// Writes the line of an outcome's status on err, and gives the outcome back.
fn told<E: Sink>(err: &mut E, outcome: Outcome) -> Outcome
    ensures same { (result.status ≡ outcome.status) × (result.report ≡ outcome.report) }
    ensures tells { Tells (fault_line result.status) (E.taken err.old) (E.taken err.new)
        (Rose (E.faults err.old) (E.faults err.new)) }
{
    tell(err, outcome.status.line());
    outcome
}

/// Runs a `step` command whole: reads the job of its file, runs it, and writes the report on `out`, or the line that
/// says why not on `err`.
///
/// The report's text is made whole before it is written. The run waits for no thread, and asks the shelf for the
/// command's file alone. Memory may run out at any step.
pub fn run_step<I: Shelf, O: Sink, E: Sink>(
    alloc: Global,
    words: &[String],
    shelf: &mut I,
    out: &mut O,
    err: &mut E,
) -> Outcome
    requires command { IsStep (command_of (spelled words.now)) }
    requires may { MayRead (I.may shelf.old) (command_of (spelled words.now)) }

    ensures headline { Prints (Runs (command_of (spelled words.now)) (I.held shelf.old))
        result.status result.report
        (O.taken out.old) (O.taken out.new) }
    ensures owes { ForSome (command_of (spelled words.now))
        (λ c. Owes c (I.held shelf.old) result.status result.report
        (Rose (I.faults shelf.old) (I.faults shelf.new)) (Rose (O.faults out.old) (O.faults out.new))
        (I.never_fails shelf.old) (O.room_left out.old)) }
    ensures tells { Tells (fault_line result.status) (E.taken err.old) (E.taken err.new)
        (Rose (E.faults err.old) (E.faults err.new)) }
{
    told(err, step_words(alloc, words, shelf, out))
}

/// Runs the program on its words, over any shelf and sinks.
///
/// A `step` command runs as in `run_step`. A `run` and a `gen` command wait for their threads, which call `pause` at
/// its points.
pub fn batchrun<R: Threads + Wait + Sync, I: Shelf, O: Sink, E: Sink, G: Pause + Sync>(
    rt: &R,
    alloc: Global,
    words: &[String],
    shelf: &mut I,
    out: &mut O,
    err: &mut E,
    pause: &G,
) -> Outcome
    requires may { MayRead (I.may shelf.old) (command_of (spelled words.now)) }

    ensures headline { Prints (Runs (command_of (spelled words.now)) (I.held shelf.old))
        result.status result.report
        (O.taken out.old) (O.taken out.new) }
    ensures summary { PrintsSummary (command_of (spelled words.now)) result.status
        (O.taken out.old) (O.taken out.new) }
    ensures usage { (result.status ≡ Status.Usage) ↔ IsNone (command_of (spelled words.now)) }
    ensures owes { ForSome (command_of (spelled words.now))
        (λ c. Owes c (I.held shelf.old) result.status result.report
        (Rose (I.faults shelf.old) (I.faults shelf.new)) (Rose (O.faults out.old) (O.faults out.new))
        (I.never_fails shelf.old) (O.room_left out.old)) }
    ensures tells { Tells (fault_line result.status) (E.taken err.old) (E.taken err.new)
        (Rose (E.faults err.old) (E.faults err.new)) }
{
    told(err, run_words(rt, alloc, words, shelf, out, pause))
}
