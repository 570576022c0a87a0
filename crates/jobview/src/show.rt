//! What is shown of a job: its file is read, and the rows of its leaves or its canonical text are made.
ghost use Rattle.std.specs.Prelude.{◌≡◌, ◌≤◌, IfOk, IfErr, IsTrue, IsSome, length};
ghost use Rattle.sp_order.specs.Sources.{TakeReplies};
ghost use Rattle.program_io.specs.Lines.{told_text};
ghost use Rattle.jobview.specs.Outcomes.{Shows, IsShown, Refuses};
ghost use Rattle.jobview.specs.Code.{end_line, IsTextOf, StopsText, StopsShowing};
ghost use Rattle.limits.specs.declared.TheConstants.{MOST_JOB_BYTES};

use crate::status::{ViewRefusal, status_of};
use crate::words::{Form, View};
use bt_io::{ReadErr, Shelf};
use job_lang::{JobErr, read_job};
use job_writer::write_job;
use leaf_places::rows_of;
use limits::{MOST_JOB_BYTES, MOST_OPEN_BLOCKS};
use program_io::{End, Line, Program, Stop, read_file};
use sp_order::Job;
use std::alloc::{AllocError, Global};

/// The canonical text of a job, if the job is not too deep for one.
fn text_of(alloc: Global, job: &Job) -> Result<Vec<u8>, Stop<ViewRefusal>>
    requires { TakeReplies job.now.acts job.now.sources }
    ensures ok { IfOk result (λ shown. IsTextOf job.now shown.items) }
    ensures err { IfErr result (λ stop. StopsText stop job.now) }
{
    if job.depth() > MOST_OPEN_BLOCKS {
        return Err(Stop::Refused(ViewRefusal::TooDeep));
    }
    match write_job(alloc, job) {
        Ok(shown) => Ok(shown),
        Err(AllocError) => Err(Stop::Memory),
    }
}

/// What is shown of the job of a text in this form.
fn show(alloc: Global, form: Form, bytes: &[u8]) -> Result<Vec<u8>, Stop<ViewRefusal>>
    requires { length bytes.now ≤ MOST_JOB_BYTES }
    ensures ok { IfOk result (λ shown. Shows form bytes.now shown.items) }
    ensures err { IfErr result (λ stop. StopsShowing stop form bytes.now) }
{
    let job = match read_job(alloc, bytes) {
        Ok(job) => job,
        Err(JobErr::Bad(fault)) => return Err(Stop::Refused(ViewRefusal::Job(fault))),
        Err(JobErr::Memory) => return Err(Stop::Memory),
    };
    match form {
        Form::Rows => match rows_of(alloc, bytes, &job) {
            Ok(shown) => Ok(shown),
            Err(AllocError) => Err(Stop::Memory),
        },
        Form::Text => text_of(alloc, &job),
    }
}

impl<'a> Program for View<'a> {
    type Told = ();

    type Refusal = ViewRefusal;

    ghost may_read = { λ s may. IsTrue (may s.file.now) };

    ghost are_held = { λ s held. IsSome (held s.file.now) };

    ghost answers = { λ s held told shown. IsShown s.form (held s.file.now) shown };

    ghost refuses = { λ s held. Refuses s.form (held s.file.now) };

    ghost line = { λ _. end_line };

    fn answer<I: Shelf>(
        &self,
        alloc: Global,
        shelf: &mut I,
    ) -> Result<((), Vec<u8>), Stop<ViewRefusal>> {
        match read_file(alloc, shelf, self.file, MOST_JOB_BYTES) {
            Ok(bytes) => match show(alloc, self.form, bytes.as_slice()) {
                Ok(shown) => Ok(((), shown)),
                Err(stop) => Err(stop),
            },
            Err(ReadErr::Failed) => Err(Stop::ReadFault),
            Err(ReadErr::TooLong) => Err(Stop::Refused(ViewRefusal::TooLong)),
            Err(ReadErr::Memory) => Err(Stop::Memory),
        }
    }

    fn line_of(&self, end: End<ViewRefusal>) -> Option<Line<'static>>
        ensures { told_text result ≡ end_line end }
    {
        status_of(end).line()
    }
}
