//! Rows of texts, each with what is told of it.
ghost use Rattle.sp_order.specs.Sources.{TakeReplies};

use job_lang::read_job;
use job_writer::write_job;
use limits::{MOST_JOB_BYTES, MOST_OPEN_BLOCKS};
use sp_order::Job;
use std::alloc::{AllocError, Global};

/// A text, and what is told of it.
pub(crate) type Row = (&'static [u8], &'static str);

/// A long text, and what is told of it: the first part, then the second and the fourth as often as the number says with
/// the third between them, and the last part.
pub(crate) type LongRow = (
    &'static str,
    usize,
    &'static str,
    &'static str,
    &'static str,
    &'static str,
    &'static str,
);

/// What a test tells of a job.
pub(crate) trait Telling {
    /// What it tells of this job, whose leaves take replies alone.
    fn tell(alloc: Global, job: &Job) -> Result<Vec<u8>, AllocError>
        requires { TakeReplies job.now.acts job.now.sources };
}

/// The canonical text of a job that is at most 32 deep.
pub(crate) struct Canonical;

impl Telling for Canonical {
    fn tell(alloc: Global, job: &Job) -> Result<Vec<u8>, AllocError> {
        if job.depth() > MOST_OPEN_BLOCKS {
            return Ok(Vec::new(alloc));
        }
        write_job(alloc, job)
    }
}

/// How many leaves a job has.
pub(crate) struct Size;

impl Telling for Size {
    fn tell(alloc: Global, job: &Job) -> Result<Vec<u8>, AllocError> {
        let leaves = job.acts().len();
        Ok(format!(in alloc; "{leaves} leaves")?.into_bytes())
    }
}

/// What is told of a text's job, or else of its fault.
fn told<T: Telling>(alloc: Global, text: &[u8]) -> Result<Vec<u8>, AllocError> {
    if text.len() > MOST_JOB_BYTES {
        return Ok(Vec::new(alloc));
    }
    match read_job(alloc, text) {
        Ok(job) => T::tell(alloc, &job),
        Err(error) => Ok(format!(in alloc; "{error}")?.into_bytes()),
    }
}

/// Whether this is told of a text.
pub(crate) fn is_told<T: Telling>(
    alloc: Global,
    text: &[u8],
    wanted: &str,
) -> Result<bool, AllocError> {
    Ok(told::<T>(alloc, text)?.as_slice() == wanted.as_bytes())
}

/// The place of the first text of which something else is told, if there is one.
pub(crate) fn first_mistold<T: Telling>(
    alloc: Global,
    rows: &[Row],
) -> Result<Option<usize>, AllocError> {
    for (place, row) in rows.iter().enumerate() {
        let (text, wanted) = *row;
        if !is_told::<T>(alloc, text, wanted)? {
            return Ok(Some(place));
        }
    }
    Ok(None)
}

/// The place of the first text whose job has another canonical text, or whose canonical text is read as the text of
/// another job, if there is one.
pub(crate) fn first_uncanonical(alloc: Global, rows: &[Row]) -> Result<Option<usize>, AllocError> {
    for (place, row) in rows.iter().enumerate() {
        let (text, wanted) = *row;
        if !is_told::<Canonical>(alloc, text, wanted)?
            || !is_told::<Canonical>(alloc, wanted.as_bytes(), wanted)?
        {
            return Ok(Some(place));
        }
    }
    Ok(None)
}

/// The text of a row.
fn long_text(alloc: Global, row: &LongRow) -> Result<String, AllocError> {
    let (first, times, front, middle, back, last, _) = *row;
    let front = front.repeat(alloc, times)?;
    let back = back.repeat(alloc, times)?;
    format!(in alloc; "{first}{front}{middle}{back}{last}")
}

/// The place of the first long text with another size or fault, if there is one.
pub(crate) fn first_missized(alloc: Global, rows: &[LongRow]) -> Result<Option<usize>, AllocError> {
    for (place, row) in rows.iter().enumerate() {
        let text = long_text(alloc, row)?;
        if !is_told::<Size>(alloc, text.as_bytes(), row.6)? {
            return Ok(Some(place));
        }
    }
    Ok(None)
}
