//! What a run prints of its report: its text, or its summary.
ghost use Rattle.std.specs.Prelude.{IfOk};
ghost use Rattle.bt_io.specs.Causes.{Rose};
ghost use Rattle.batch_history.specs.Text.{report_text};
ghost use Rattle.batch_history.specs.Summary.{summary_of_report, CanBeSummed};
ghost use Rattle.batchrun.specs.Outcomes.{Prints, MadeCause, FailsPast};
ghost use Rattle.batchrun.specs.Code.Writing.{CanBeWritten, WritesReport, WritesLines, EndsWriting};

use crate::command::GenCommand;
use crate::outcome::Outcome;
use crate::status::Status;
use batch_history::{Report, made_text, text};
use bt_io::{Failed, Sink, write_all};
use sp_order::Job;
use std::alloc::{AllocError, Global};

/// Writes the lines of a report. The status is `done` where out takes them whole, else `WriteFault`.
fn write_lines<O: Sink>(out: &mut O, lines: &[u8], done: Status) -> Status
    ensures { WritesLines done lines.now result (O.taken out.old) (O.taken out.new)
        (Rose (O.faults out.old) (O.faults out.new)) (O.room_left out.old) }
{
    match write_all(out, lines) {
        Ok(()) => done,
        Err(Failed) => Status::WriteFault,
    }
}

/// Ends a run of a file's job: writes the text of its report, unless memory ran out before.
pub(crate) fn write_report<O: Sink>(
    alloc: Global,
    job: &Job,
    run: Result<Report, AllocError>,
    out: &mut O,
) -> Outcome
    requires { IfOk run (CanBeWritten job.now) }
    ensures headline { Prints (WritesReport run (report_text job.now.names))
        result.status result.report (O.taken out.old) (O.taken out.new) }
    ensures ends { EndsWriting result.status (Rose (O.faults out.old) (O.faults out.new)) }
    ensures writes { FailsPast (WritesReport run (report_text job.now.names))
        result.status result.report (O.room_left out.old) }
{
    let Ok(report) = run else {
        return Outcome::stopped(Status::Memory);
    };
    let Ok(lines) = text(alloc, job, &report) else {
        return Outcome::stopped(Status::Memory);
    };
    let status = write_lines(out, lines.as_slice(), Status::Done);
    Outcome {
        status,
        report: Some(report),
    }
}

/// Ends a run of a generated job: writes the summary of its report, unless memory ran out before.
pub(crate) fn write_summary<O: Sink>(
    alloc: Global,
    command: &GenCommand,
    job: &Job,
    run: Result<Report, AllocError>,
    out: &mut O,
) -> Outcome
    requires { IfOk run (CanBeSummed job.now) }
    ensures headline { Prints (WritesReport run
        (summary_of_report command.now.seed command.now.size))
        result.status result.report (O.taken out.old) (O.taken out.new) }
    ensures ends { MadeCause result.status (Rose (O.faults out.old) (O.faults out.new)) }
    ensures writes { FailsPast (WritesReport run
        (summary_of_report command.now.seed command.now.size))
        result.status result.report (O.room_left out.old) }
{
    let Ok(report) = run else {
        return Outcome::stopped(Status::Memory);
    };
    let Ok(lines) = made_text(alloc, command.seed, command.size, job, &report) else {
        return Outcome::stopped(Status::Memory);
    };
    let status = write_lines(out, lines.as_slice(), Status::Made);
    Outcome {
        status,
        report: Some(report),
    }
}
