//! The batches of a book, from calls that carry the numbers of their batches and their places.
ghost use Rattle.std.specs.Prelude.{ℕ, List, IfOk, IfSome, IfNone};
ghost use Rattle.batch_history.specs.declared.batch.Entry.{Entry};
ghost use Rattle.report_reader.specs.Code.Groups.{AreCallsOf, BeginWith};

use crate::call::Numbered;
use batch_history::{Batch, Entry};
use std::alloc::{AllocError, Global};

/// The batch with this number at the front of the calls, and the calls behind it.
fn first_batch(
    alloc: Global,
    calls: &[Numbered],
    batch: u64,
) -> Result<(Vec<Entry>, &[Numbered]), AllocError>
    ensures { IfOk result (λ read. BeginWith calls.now batch read.0.items read.1.now) }
{
    let mut entries = Vec::new(alloc);
    let mut rest = calls;
    while let Some((call, more)) = rest.split_first() {
        if call.batch != batch || call.place != entries.len() as u64 {
            break;
        }
        entries.push(call.entry)?;
        rest = more;
    }
    Ok((entries, rest))
}

/// The batches of the calls, if they are those of a book without empty batches, one after another.
pub(crate) fn batches_of(
    alloc: Global,
    calls: &[Numbered],
) -> Result<Option<Vec<Batch>>, AllocError>
    ensures some { IfOk result (λ read. IfSome read (λ book. AreCallsOf calls.now 0 book.items)) }
    ensures none { IfOk result (λ read. IfNone read ((book : List (List Entry))
        → AreCallsOf calls.now 0 book → ⊥)) }
{
    let mut book = Vec::new(alloc);
    let mut rest = calls;
    while !rest.is_empty() {
        let (entries, more) = first_batch(alloc, rest, book.len() as u64)?;
        if entries.is_empty() {
            return Ok(None);
        }
        book.push(Batch::of(entries))?;
        rest = more;
    }
    Ok(Some(book))
}
