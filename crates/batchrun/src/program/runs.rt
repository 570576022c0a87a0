//! The run of each command: it reads or generates the job, runs it, and writes the report or its summary.
ghost use Rattle.std.specs.Prelude.{◌≡◌, ◌≤◌, ℕ, Some, Err, length, IsSome, IfOk, IfSome, IsTrue};
ghost use Rattle.limits.specs.declared.TheConstants.{MOST_GENERATED};
ghost use Rattle.bt_io.specs.Causes.{Rose};
ghost use Rattle.batch_history.specs.Lawful.{Lawful};
ghost use Rattle.batch_history.specs.Summary.{CanBeSummed, summary_of_report, summary_of_job};
ghost use Rattle.batch_history.specs.declared.report.Report.{Report};
ghost use Rattle.core_model.specs.Reports.{IsDrivenReport, IsRunReport};
ghost use Rattle.job_writer.specs.Generator.{generated};
ghost use Rattle.batchrun.specs.Words.{workers_named};
ghost use Rattle.batchrun.specs.Outcomes.{PrintsRun, HasDriven, IsModelRun, Prints, FileCause, MadeCause, FailsPast, IsUnlessMemory};
ghost use Rattle.batchrun.specs.Commands.{PrintsMade, PrintsSummary};
ghost use Rattle.batchrun.specs.Code.Commands.{gen_in};

use crate::command::{GenCommand, RunCommand, StepCommand};
use crate::outcome::Outcome;
use crate::program::input::read_job_of;
use crate::program::output::{write_report, write_summary};
use crate::run::run_by_turns;
use crate::status::Status;
use batch_history::Report;
use batch_history::laws::{lawful_reports_name_their_objects, summary_is_the_jobs};
use bt_io::{Shelf, Sink};
use job_writer::generate;
use job_writer::laws::{
    generated_jobs_fill_first, generated_jobs_have_few_leaves, generated_jobs_have_small_arguments,
};
use run_points::Pause;
use sp_order::Job;
use std::alloc::{AllocError, Global};
use std::sync::Wait;
use std::thread::Threads;
use worker_loop::run_table;

/// Runs a job by turns, first those that the command's schedule names.
fn run_by_schedule(
    alloc: Global,
    command: &StepCommand<'_>,
    job: &Job,
) -> Result<Report, AllocError>
    ensures driven { IfOk result (λ report. IsDrivenReport job.now command.now.workers
        (workers_named command.now.schedule.now) report) }
    ensures run { IfOk result (IsRunReport job.now command.now.workers) }
    ensures lawful { IfOk result (λ report. Lawful job.now command.now.workers report) }
{
    let turns = command.turns(alloc)?;
    run_by_turns(alloc, job, command.workers, turns.as_slice())
}

/// Runs the job of a command's file by turns, and writes its report.
pub(crate) fn step_file<I: Shelf, O: Sink>(
    alloc: Global,
    command: &StepCommand<'_>,
    shelf: &mut I,
    out: &mut O,
) -> Outcome
    requires may { IsTrue (I.may shelf.old command.now.file.now) }
    ensures headline { Prints (PrintsRun (I.held shelf.old command.now.file.now) command.now.workers)
        result.status result.report (O.taken out.old) (O.taken out.new) }
    ensures driven { IfSome result.report (HasDriven (I.held shelf.old command.now.file.now)
        command.now.workers (workers_named command.now.schedule.now)) }
    ensures model { IfSome result.report
        (IsModelRun (I.held shelf.old command.now.file.now) command.now.workers) }
    ensures cause { FileCause result.status (I.held shelf.old command.now.file.now)
        (Rose (I.faults shelf.old) (I.faults shelf.new))
        (Rose (O.faults out.old) (O.faults out.new)) }
    ensures reads { IsTrue (I.never_fails shelf.old)
        → IsSome (I.held shelf.old command.now.file.now)
        → result.status ≡ Status.ReadFault
        → ⊥ }
    ensures writes { FailsPast (PrintsRun (I.held shelf.old command.now.file.now) command.now.workers)
        result.status result.report (O.room_left out.old) }
{
    lawful_reports_name_their_objects();
    match read_job_of(alloc, shelf, command.file) {
        Ok(job) => write_report(alloc, &job, run_by_schedule(alloc, command, &job), out),
        Err(status) => Outcome::stopped(status),
    }
}

/// Runs the job of a command's file in threads, and writes its report.
pub(crate) fn run_file<R: Threads + Wait + Sync, I: Shelf, O: Sink, G: Pause + Sync>(
    rt: &R,
    alloc: Global,
    command: &RunCommand<'_>,
    shelf: &mut I,
    out: &mut O,
    pause: &G,
) -> Outcome
    requires may { IsTrue (I.may shelf.old command.now.file.now) }
    ensures headline { Prints (PrintsRun (I.held shelf.old command.now.file.now) command.now.workers)
        result.status result.report (O.taken out.old) (O.taken out.new) }
    ensures model { IfSome result.report
        (IsModelRun (I.held shelf.old command.now.file.now) command.now.workers) }
    ensures cause { FileCause result.status (I.held shelf.old command.now.file.now)
        (Rose (I.faults shelf.old) (I.faults shelf.new))
        (Rose (O.faults out.old) (O.faults out.new)) }
    ensures reads { IsTrue (I.never_fails shelf.old)
        → IsSome (I.held shelf.old command.now.file.now)
        → result.status ≡ Status.ReadFault
        → ⊥ }
    ensures writes { FailsPast (PrintsRun (I.held shelf.old command.now.file.now) command.now.workers)
        result.status result.report (O.room_left out.old) }
{
    lawful_reports_name_their_objects();
    match read_job_of(alloc, shelf, command.file) {
        Ok(job) => {
            let run = run_table(rt, alloc, &job, command.workers, pause);
            write_report(alloc, &job, run, out)
        }
        Err(status) => Outcome::stopped(status),
    }
}

/// Every lawful report of a generated job has the summary of that job, which can be made. For proofs only; it does
/// nothing.
fn generated_jobs_have_one_summary()
    ensures sums { (seed size workers : ℕ) (report : Report) → 1 ≤ size → size ≤ MOST_GENERATED
        → Lawful (generated seed size) workers report → CanBeSummed (generated seed size) report }
    ensures lines { (seed size workers : ℕ) (report : Report) → 1 ≤ size
        → Lawful (generated seed size) workers report
        → summary_of_report seed size report ≡ summary_of_job seed size workers (generated seed size) }
{
    generated_jobs_fill_first();
    generated_jobs_have_few_leaves();
    generated_jobs_have_small_arguments();
    summary_is_the_jobs();
}

/// Generates the job of the command, runs it in threads, and writes its summary.
pub(crate) fn run_made<R: Threads + Wait + Sync, O: Sink, G: Pause + Sync>(
    rt: &R,
    alloc: Global,
    command: &GenCommand,
    out: &mut O,
    pause: &G,
) -> Outcome
    ensures headline { Prints (PrintsMade command.now.size command.now.seed command.now.workers)
        result.status result.report (O.taken out.old) (O.taken out.new) }
    ensures model { IfSome result.report
        (IsRunReport (generated command.now.seed command.now.size) command.now.workers) }
    ensures summary { PrintsSummary (Some (gen_in command.now)) result.status
        (O.taken out.old) (O.taken out.new) }
    ensures cause { MadeCause result.status (Rose (O.faults out.old) (O.faults out.new)) }
    ensures writes { FailsPast (PrintsMade command.now.size command.now.seed command.now.workers)
        result.status result.report (O.room_left out.old) }
    ensures assured { length (summary_of_job command.now.seed command.now.size command.now.workers
        (generated command.now.seed command.now.size)) ≤ O.room_left out.old
        → IsUnlessMemory result.status Status.Made }
{
    generated_jobs_have_one_summary();
    let Ok(job) = generate(alloc, command.seed, command.size) else {
        return Outcome::stopped(Status::Memory);
    };
    let run = run_table(rt, alloc, &job, command.workers, pause);
    write_summary(alloc, command, &job, run, out)
}
