//! Batches that a structure serves one after another, with the replies that they want.
ghost use Rattle.std.specs.Prelude.{◌<◌};
ghost use Rattle.std.specs.Thread.{IsSync};

use std::alloc::{AllocError, Global};
use std::thread::Threads;

/// A structure that is handed whole batches.
pub(crate) trait Served: Sized + Drop {
    /// What one worker calls, as a row has it.
    type Call: Copy;

    /// The empty structure.
    fn empty(alloc: Global) -> Result<Self, AllocError>;

    /// Serves a batch in at most so many threads, and appends its replies in words. A batch of more than 32 calls is
    /// not served.
    fn serve<R: Threads + Sync>(
        self,
        rt: &R,
        alloc: Global,
        threads: usize,
        calls: &[Self::Call],
        words: &mut String,
    ) -> Result<Self, AllocError>
        requires some { 0 < threads }
        requires shared { IsSync R.row };
}

/// Whether the batches of these rows, served one after another, get the replies that the rows say. A row has the calls
/// of a batch, by worker, and the replies in batch order.
fn is_served<S: Served, R: Threads + Sync>(
    rt: &R,
    alloc: Global,
    threads: usize,
    rows: &[(&[S::Call], &str)],
) -> Result<bool, AllocError>
    requires { 0 < threads }
{
    let mut structure = S::empty(alloc)?;
    for row in rows {
        let (calls, wanted) = *row;
        let mut words = String::new(alloc);
        structure = structure.serve(rt, alloc, threads, calls, &mut words)?;
        if words.as_str() != wanted {
            return Ok(false);
        }
    }
    Ok(true)
}

/// The numbers of threads in which rows are served.
const THREADS: &[usize] = &[1, 2, 3, 16, 100];

/// Whether the rows are served so in each of these numbers of threads.
fn is_served_in_threads<S: Served, R: Threads + Sync>(
    rt: &R,
    alloc: Global,
    rows: &[(&[S::Call], &str)],
) -> Result<bool, AllocError> {
    for threads in THREADS {
        if !is_served::<S, R>(rt, alloc, (*threads).max(1), rows)? {
            return Ok(false);
        }
    }
    Ok(true)
}

/// The place of the first list of rows that is served otherwise from the empty structure on, if there is one.
pub(crate) fn first_wrong<S: Served, R: Threads + Sync>(
    rt: &R,
    alloc: Global,
    lists: &[&[(&[S::Call], &str)]],
) -> Result<Option<usize>, AllocError> {
    for (place, rows) in lists.iter().enumerate() {
        if !is_served_in_threads::<S, R>(rt, alloc, rows)? {
            return Ok(Some(place));
        }
    }
    Ok(None)
}
