//! The text of a report: a head line, the calls batch by batch, and the leaves.
ghost use Rattle.std.specs.Prelude.{◌≡◌, ◌++◌, ◌+◌, ◌<◌, ◌≤◌, ◌^◌, length, map, IfOk, OnOk, string_bytes};
ghost use Rattle.std.specs.List.{flat_map};
ghost use Rattle.job_names.specs.Names.{AreSpelled, spelling};
ghost use Rattle.seq_objects.specs.Objects.{number_of};
ghost use Rattle.sp_order.specs.Precedence.{leaf_count};
ghost use Rattle.batch_history.specs.Book.{flat};
ghost use Rattle.batch_history.specs.Text.{HaveNames, batch_lines, book_lines, row_line, report_text, head_line, entry_line};

use crate::batch::{Batch, Entry};
use crate::report::Report;
use crate::row::Row;
use crate::words::{push_number, push_reply};
use call_words::push_op;
use job_names::Name;
use sp_order::Job;
use std::alloc::{AllocError, Global};

/// The room that each line of a report's text gets in advance, in bytes. The lines of most reports have a little less on
/// average.
const LINE_ROOM: usize = 64;

/// The number of entries in all batches.
fn count_calls(book: &[Batch]) -> usize
    requires { length (flat book.now) < 2 ^ 64 }
    ensures { result ≡ length (flat book.now) }
{
    let mut count = 0;
    for batch in book {
        count += batch.entries().len();
    }
    count
}

#[tactic(auto, unfolding(crate::specs::Text::head_line))]
fn push_head(
    text: &mut String,
    workers: u32,
    leaves: usize,
    calls: usize,
    batches: usize,
) -> Result<(), AllocError>
    ensures { OnOk result (string_bytes text.new ≡ string_bytes text.old ++ head_line workers leaves calls batches) }
{
    push_number(text, "workers ", workers)?;
    push_number(text, " leaves ", leaves)?;
    push_number(text, " calls ", calls)?;
    push_number(text, " batches ", batches)?;
    text.push_str("\n")
}

#[tactic(auto, unfolding(crate::specs::Text::entry_line))]
fn push_entry(
    text: &mut String,
    names: &[Name],
    batch: usize,
    place: usize,
    entry: &Entry,
) -> Result<(), AllocError>
    requires number { number_of entry.now.op ≤ length names.now }
    requires spelled { AreSpelled (map (λ name. spelling name) names.now) }
    ensures { OnOk result (string_bytes text.new ≡ string_bytes text.old ++ entry_line (map (λ name. spelling name) names.now) batch place entry.now) }
{
    push_number(text, "batch ", batch)?;
    push_number(text, " place ", place)?;
    push_number(text, " worker ", entry.worker)?;
    push_number(text, " leaf ", entry.leaf)?;
    text.push_str(" ")?;
    push_op(text, names, entry.op)?;
    push_reply(text, entry.reply)
}

fn push_batch(
    text: &mut String,
    names: &[Name],
    batch: usize,
    entries: &[Entry],
) -> Result<(), AllocError>
    requires numbers { HaveNames (map (λ name. spelling name) names.now) entries.now }
    requires spelled { AreSpelled (map (λ name. spelling name) names.now) }
    ensures { OnOk result (string_bytes text.new ≡ string_bytes text.old ++ batch_lines (map (λ name. spelling name) names.now) batch 0 entries.now) }
{
    for (place, entry) in entries.iter().enumerate() {
        push_entry(text, names, batch, place, entry)?;
    }
    Ok(())
}

fn push_book(text: &mut String, names: &[Name], book: &[Batch]) -> Result<(), AllocError>
    requires numbers { HaveNames (map (λ name. spelling name) names.now) (flat book.now) }
    requires spelled { AreSpelled (map (λ name. spelling name) names.now) }
    ensures { OnOk result (string_bytes text.new ≡ string_bytes text.old ++ book_lines (map (λ name. spelling name) names.now) 0 book.now) }
{
    for (number, batch) in book.iter().enumerate() {
        push_batch(text, names, number, batch.entries())?;
    }
    Ok(())
}

#[tactic(auto, unfolding(crate::specs::Text::row_line))]
fn push_row(text: &mut String, row: &Row) -> Result<(), AllocError>
    ensures { OnOk result (string_bytes text.new ≡ string_bytes text.old ++ row_line row.now) }
{
    push_number(text, "leaf ", row.leaf)?;
    push_number(text, " worker ", row.worker)?;
    push_number(text, " start ", row.start)?;
    push_number(text, " end ", row.end)?;
    push_number(text, " value ", row.value)?;
    text.push_str("\n")
}

fn push_rows(text: &mut String, rows: &[Row]) -> Result<(), AllocError>
    ensures { OnOk result (string_bytes text.new ≡ string_bytes text.old ++ flat_map row_line rows.now) }
{
    for row in rows {
        push_row(text, row)?;
    }
    Ok(())
}

/// The text of a report: a head line, a line for each call in the order of the batches, and a line for each leaf, each
/// with a final line feed. Time and memory: linear in the length of the text, whose room is reserved before it is
/// written.
pub fn text(alloc: Global, job: &Job, report: &Report) -> Result<Vec<u8>, AllocError>
    requires rows { length report.now.rows ≡ leaf_count job.now.shape }
    requires numbers { HaveNames job.now.names (flat report.now.history) }
    ensures { IfOk result (λ bytes. bytes.items ≡ report_text job.now.names report.now) }
{
    let book = report.history.batches();
    let calls = count_calls(book);
    let lines = calls.saturating_add(report.rows.list().len());
    let mut text = String::with_capacity(alloc, lines.saturating_mul(LINE_ROOM))?;
    push_head(
        &mut text,
        report.workers,
        job.acts().len(),
        calls,
        book.len(),
    )?;
    push_book(&mut text, job.names(), book)?;
    push_rows(&mut text, report.rows.list())?;
    Ok(text.into_bytes())
}
