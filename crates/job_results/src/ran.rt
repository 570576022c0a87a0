//! A job that was run, and its results.
ghost use Rattle.std.specs.Prelude.{◌≡◌, ◌<◌, Some, IfOk};
ghost use Rattle.batch_history.specs.Lawful.{LawfulWith};
ghost use Rattle.batch_history.specs.Places.{place_of as place_in_book};
ghost use Rattle.batch_history.specs.Text.{report_text};
ghost use Rattle.job_results.specs.Results.{calls_of, value_in};
ghost use Rattle.serial_runs.specs.SerialRuns.{HasValue, IsReplyTo, IsSerialRunWith};
ghost use Rattle.sp_order.specs.Precedence.{leaf_count};
ghost use Rattle.sp_order.specs.Sources.{IsCallLeaf};

use batch_history::{Place, Report, place_of, text};
use leaf_handles::Handle;
use leaf_work::{LeafWork, Spin};
use seq_objects::Reply;
use serial_runs::lawful_reports_with_work_are_serial;
use sp_order::Job;
use sp_order::object_laws::{arguments_keep_objects, named_numbers_are_by_first_use};
use std::alloc::{AllocError, Global};
use std::marker::Model;
use std::snapshot::Snapshot;

/// A job whose leaves of work did this work, with a lawful report of it. The work itself is not kept: clauses alone name
/// it. Contracts see a `RanValue`.
#[derive(Drop)]
pub struct RanWith<W: LeafWork> {
    job: Job,
    report: Report,
    work: Snapshot<W>,
}

/// A job whose leaves of work spin, with a lawful report of it.
pub type Ran = RanWith<Spin>;

impl<W: LeafWork> Model for RanWith<W> {
    ghost use Rattle.batch_history.specs.Lawful.{LawfulWith};
    ghost use Rattle.job_results.specs.Results.{RanValue};
    ghost use Rattle.std.specs.Coded.{codes};
    ghost use Rattle.sp_order.specs.Jobs.{coded_job};

    ghost Value = { RanValue W };

    ghost coded = { Prim.hlevel (codes, coded_job) };

    ghost view = { λ r. record { job = r.job; report = r.report; work = r.work.value } };

    ghost invariant = { λ r. LawfulWith (W.meaning r.work.value) r.job r.report.workers r.report };
}

impl<W: LeafWork> RanWith<W> {
    /// The results of a job with this report, whose leaves of work did this work. Memory: none.
    pub fn of(job: Job, report: Report, work: &W) -> RanWith<W>
        requires { LawfulWith (W.meaning work.now) job report.workers report }
        ensures { result ≡ record { job = job; report = report; work = work.now } }
    {
        RanWith {
            job,
            report,
            work: Snapshot::of(work),
        }
    }

    /// The job.
    pub fn job(&self) -> &Job
        ensures { result.now ≡ self.now.job }
    {
        &self.job
    }

    /// The report.
    pub fn report(&self) -> &Report
        ensures report { result.now ≡ self.now.report }
        ensures lawful { LawfulWith (W.meaning self.now.work) self.now.job self.now.report.workers
            self.now.report }
    {
        &self.report
    }

    /// The calls are a serial run of the job's. It does nothing.
    pub fn is_serial(&self)
        ensures { IsSerialRunWith (W.meaning self.now.work) self.now.job (calls_of self.now) }
    {
        lawful_reports_with_work_are_serial();
        let _report = &self.report;
    }

    /// The value of a leaf: what its work means, of its number or of what it takes of its source, or that of its reply.
    pub fn value_of(&self, handle: Handle) -> u64
        requires { handle.leaf < leaf_count self.now.job.shape }
        ensures value { value_in self.now.report handle.leaf ≡ Some result }
        ensures serial { HasValue (W.meaning self.now.work) self.now.job (calls_of self.now) handle.leaf
            result }
    {
        self.report.rows.list()[handle.leaf() as usize].value
    }

    /// The place of a call: its batch, its place there, and the call itself with its reply. It searches the batches.
    pub fn place_of(&self, handle: Handle) -> Place
        requires { IsCallLeaf self.now.job.acts handle.leaf }
        ensures { place_in_book self.now.report.history handle.leaf ≡ Some result }
    {
        let _acts = self.job.acts();
        match place_of(self.report.history.batches(), handle.leaf()) {
            Some(place) => place,
            None => unreachable!(),
        }
    }

    /// The reply to a call. It searches the batches.
    pub fn reply_of(&self, handle: Handle) -> Reply
        requires { IsCallLeaf self.now.job.acts handle.leaf }
        ensures { IsReplyTo (calls_of self.now) handle.leaf result }
    {
        self.place_of(handle).entry.reply
    }

    /// The text of the report, with the names of the job's objects.
    pub fn text(&self, alloc: Global) -> Result<Vec<u8>, AllocError>
        ensures { IfOk result (λ bytes. bytes.items ≡ report_text self.now.job.names self.now.report) }
    {
        named_numbers_are_by_first_use();
        arguments_keep_objects();
        let _acts = self.job.acts();
        text(alloc, &self.job, &self.report)
    }
}
