//! The job of a command's file: its bytes, read to their end, and the job that they are.
ghost use Rattle.std.specs.Prelude.{◌≡◌, Err, IsSome, IfOk, IfErr, IsTrue};
ghost use Rattle.bt_io.specs.Causes.{Rose};
ghost use Rattle.sp_order.specs.Jobs.{IsJob};
ghost use Rattle.batchrun.specs.Code.Reading.{HasJob, EndsReading};

use crate::status::{Refusal, Status};
use bt_io::{ReadErr, Shelf};
use job_lang::{JobErr, read_job};
use limits::MOST_JOB_BYTES;
use program_io::read_file;
use sp_order::Job;
use std::alloc::Global;

/// Reads the job of a file. The error is the status with which the run then ends.
pub(crate) fn read_job_of<I: Shelf>(alloc: Global, shelf: &mut I, file: &str) -> Result<Job, Status>
    requires { IsTrue (I.may shelf.old file.now) }
    ensures ok { IfOk result (HasJob (I.held shelf.old file.now)) }
    ensures job { IfOk result IsJob }
    ensures err { IfErr result (λ status. EndsReading status (I.held shelf.old file.now)
        (Rose (I.faults shelf.old) (I.faults shelf.new))) }
    ensures sure { IsTrue (I.never_fails shelf.old)
        → IsSome (I.held shelf.old file.now)
        → result ≡ Err Status.ReadFault
        → ⊥ }
{
    let bytes = match read_file(alloc, shelf, file, MOST_JOB_BYTES) {
        Ok(bytes) => bytes,
        Err(ReadErr::Failed) => return Err(Status::ReadFault),
        Err(ReadErr::TooLong) => return Err(Status::Refused(Refusal::TooLong)),
        Err(ReadErr::Memory) => return Err(Status::Memory),
    };
    match read_job(alloc, bytes.as_slice()) {
        Ok(job) => Ok(job),
        Err(JobErr::Bad(fault)) => Err(Status::Refused(Refusal::Job(fault))),
        Err(JobErr::Memory) => Err(Status::Memory),
    }
}
