//! The check of a report against a job: both files are read, the report's after the job was accepted, and the words of
//! its flaw are made.
ghost use Rattle.std.specs.Prelude.{◌≡◌, ◌≤◌, Err, IsSome, IfOk, IfErr, IsTrue};
ghost use Rattle.bt_io.specs.Causes.{Rose};
ghost use Rattle.program_io.specs.Lines.{told_text};
ghost use Rattle.program_io.specs.Reading.{WasRead};
ghost use Rattle.sp_order.specs.Sources.{TakeReplies};
ghost use Rattle.report_check.specs.Flaws.{IsFlawOf};
ghost use Rattle.batchcheck.specs.Lines.{verdict_text};
ghost use Rattle.batchcheck.specs.Outcomes.{HasJob, IsJudged, Refuses};
ghost use Rattle.batchcheck.specs.Code.{files_in, end_line, AreHeld, StopsJob, StopsReport};
ghost use Rattle.limits.specs.declared.TheConstants.{MOST_REPORT_BYTES};

use crate::verdict::{CheckRefusal, Verdict, stopped};
use crate::words::Check;
use bt_io::{ReadErr, Shelf};
use job_lang::laws::texts_have_one_job_or_fault;
use job_lang::{JobErr, read_job};
use limits::{MOST_JOB_BYTES, MOST_REPORT_BYTES};
use program_io::{End, Line, Program, Stop, read_file};
use report_check::{Flaw, check};
use report_reader::{ReadReportErr, read_report};
use sp_order::Job;
use std::alloc::{AllocError, Global};

/// Reads the job of a file, whose leaves take replies alone.
fn read_job_of<I: Shelf>(
    alloc: Global,
    shelf: &mut I,
    file: &str,
) -> Result<Job, Stop<CheckRefusal>>
    requires { IsTrue (I.may shelf.old file.now) }
    ensures ok { IfOk result (HasJob (I.held shelf.old file.now)) }
    ensures replies { IfOk result (λ job. TakeReplies job.acts job.sources) }
    ensures err { IfErr result (λ stop. StopsJob stop (I.held shelf.old file.now)
        (Rose (I.faults shelf.old) (I.faults shelf.new))) }
    ensures sure { IsTrue (I.never_fails shelf.old)
        → IsSome (I.held shelf.old file.now)
        → result ≡ Err Stop.ReadFault
        → ⊥ }
    ensures later { I.faults shelf.old ≤ I.faults shelf.new }
    ensures may { I.may shelf.new ≡ I.may shelf.old }
    ensures held { I.held shelf.new ≡ I.held shelf.old }
    ensures never_fails { IsTrue (I.never_fails shelf.old) → IsTrue (I.never_fails shelf.new) }
{
    let bytes = match read_file(alloc, shelf, file, MOST_JOB_BYTES) {
        Ok(bytes) => bytes,
        Err(ReadErr::Failed) => return Err(Stop::ReadFault),
        Err(ReadErr::TooLong) => return Err(Stop::Refused(CheckRefusal::JobTooLong)),
        Err(ReadErr::Memory) => return Err(Stop::Memory),
    };
    match read_job(alloc, bytes.as_slice()) {
        Ok(job) => Ok(job),
        Err(JobErr::Bad(fault)) => Err(Stop::Refused(CheckRefusal::Job(fault))),
        Err(JobErr::Memory) => Err(Stop::Memory),
    }
}

/// Reads the text of a report's file.
fn read_text_of<I: Shelf>(
    alloc: Global,
    shelf: &mut I,
    file: &str,
) -> Result<Vec<u8>, Stop<CheckRefusal>>
    requires { IsTrue (I.may shelf.old file.now) }
    ensures ok { IfOk result (λ text. WasRead MOST_REPORT_BYTES (I.held shelf.old file.now) text.items) }
    ensures err { IfErr result (λ stop. StopsReport stop (I.held shelf.old file.now)
        (Rose (I.faults shelf.old) (I.faults shelf.new))) }
    ensures sure { IsTrue (I.never_fails shelf.old)
        → IsSome (I.held shelf.old file.now)
        → result ≡ Err Stop.ReadFault
        → ⊥ }
    ensures later { I.faults shelf.old ≤ I.faults shelf.new }
    ensures may { I.may shelf.new ≡ I.may shelf.old }
    ensures held { I.held shelf.new ≡ I.held shelf.old }
    ensures never_fails { IsTrue (I.never_fails shelf.old) → IsTrue (I.never_fails shelf.new) }
{
    match read_file(alloc, shelf, file, MOST_REPORT_BYTES) {
        Ok(text) => Ok(text),
        Err(ReadErr::Failed) => Err(Stop::ReadFault),
        Err(ReadErr::TooLong) => Err(Stop::Refused(CheckRefusal::ReportTooLong)),
        Err(ReadErr::Memory) => Err(Stop::Memory),
    }
}

/// The flaw of a text as a report of a job, or none.
fn flaw_of(alloc: Global, job: &Job, text: &[u8]) -> Result<Option<Flaw>, AllocError>
    requires { TakeReplies job.now.acts job.now.sources }
    ensures { IfOk result (IsFlawOf job.now text.now) }
{
    match read_report(alloc, job, text) {
        Ok(raw) => check(alloc, job, &raw),
        Err(ReadReportErr::NoReport) => Ok(Some(Flaw::Text)),
        Err(ReadReportErr::Memory) => Err(AllocError),
    }
}

/// What is printed of a text with this flaw, or without one.
fn words_of(flaw: Option<Flaw>) -> &'static [u8]
    ensures { result.now ≡ verdict_text flaw }
{
    match flaw {
        None => b"lawful\n",
        Some(Flaw::Text) => b"not lawful: text\n",
        Some(Flaw::Rows) => b"not lawful: rows\n",
        Some(Flaw::Order) => b"not lawful: order\n",
        Some(Flaw::Calls) => b"not lawful: calls\n",
        Some(Flaw::Replies) => b"not lawful: replies\n",
        Some(Flaw::Ticks) => b"not lawful: ticks\n",
        Some(Flaw::Batches) => b"not lawful: batches\n",
        Some(Flaw::Values) => b"not lawful: values\n",
    }
}

/// Judges a text, and makes the words of its flaw.
fn judge(
    alloc: Global,
    job: &Job,
    text: &[u8],
) -> Result<(Option<Flaw>, Vec<u8>), Stop<CheckRefusal>>
    requires { TakeReplies job.now.acts job.now.sources }
    ensures flaw { IfOk result (λ told. IsFlawOf job.now text.now told.0) }
    ensures words { IfOk result (λ told. told.1.items ≡ verdict_text told.0) }
    ensures memory { IfErr result (λ stop. stop ≡ Stop.Memory) }
{
    let Ok(flaw) = flaw_of(alloc, job, text) else {
        return Err(Stop::Memory);
    };
    match words_of(flaw).to_vec(alloc) {
        Ok(words) => Ok((flaw, words)),
        Err(_) => Err(Stop::Memory),
    }
}

impl<'a> Program for Check<'a> {
    type Told = Option<Flaw>;

    type Refusal = CheckRefusal;

    ghost may_read = { λ s may. IsTrue (may s.job.now) × IsTrue (may s.report.now) };

    ghost are_held = { λ s. AreHeld (files_in s) };

    ghost answers = { λ s held flaw words. IsJudged (files_in s) held flaw × (words ≡ verdict_text flaw) };

    ghost refuses = { λ s. Refuses (files_in s) };

    ghost line = { λ _. end_line };

    fn answer<I: Shelf>(
        &self,
        alloc: Global,
        shelf: &mut I,
    ) -> Result<(Option<Flaw>, Vec<u8>), Stop<CheckRefusal>> {
        texts_have_one_job_or_fault();
        let job = read_job_of(alloc, shelf, self.job)?;
        let text = read_text_of(alloc, shelf, self.report)?;
        judge(alloc, &job, text.as_slice())
    }

    fn line_of(&self, end: End<CheckRefusal>) -> Option<Line<'static>>
        ensures { told_text result ≡ end_line end }
    {
        match end {
            End::Done => None,
            End::Stopped(stop) => stopped(stop).line(),
            End::WriteFault => Verdict::WriteFault.line(),
        }
    }
}
