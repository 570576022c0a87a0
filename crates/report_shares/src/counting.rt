//! The shares of all workers.
ghost use Rattle.std.specs.Prelude.{◌≡◌, ◌<◌, ◌^◌, length, IfOk};
ghost use Rattle.report_shares.specs.Shares.{shares_of};

use crate::callers::callers_of;
use crate::lane::push_lane;
use crate::share::Share;
use batch_history::{Batch, Row};
use std::alloc::{AllocError, Global};

/// The shares of the workers of rows and a book, which need not be lawful, worker after worker, each from its first
/// column on.
///
/// Time: the leaves of the book are sorted, all rows are passed once for each worker, and each row of a worker is looked
/// at once for each column.
pub fn shares(
    alloc: Global,
    workers: u32,
    rows: &[Row],
    book: &[Batch],
) -> Result<Vec<Share>, AllocError>
    requires { length rows.now < 2 ^ 32 }
    ensures { IfOk result (λ shares. shares.items
        ≡ shares_of (record { workers = workers; history = book.now; rows = rows.now })) }
{
    let callers = callers_of(alloc, book)?;
    let mut shares = Vec::new(alloc);
    for worker in 0..workers {
        push_lane(alloc, &mut shares, &callers, rows, worker)?;
    }
    Ok(shares)
}
