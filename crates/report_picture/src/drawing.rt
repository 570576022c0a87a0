//! The picture of a report, drawn part by part.
ghost use Rattle.std.specs.Prelude.{◌≡◌, ◌≤◌, ◌<◌, ◌^◌, length, map, IfOk};
ghost use Rattle.job_names.specs.Names.{AreSpelled, spelling};
ghost use Rattle.batch_history.specs.Book.{flat};
ghost use Rattle.batch_history.specs.Text.{HaveNames};
ghost use Rattle.report_picture.specs.Boxes.{span_of, scale_of};
ghost use Rattle.report_picture.specs.Picture.{CanBeDrawn, has_boxes, picture};
ghost use Rattle.report_picture.specs.Code.Texts.{drawing_text, columns_text};

use crate::batches::{Strip, push_brackets};
use crate::boxes::push_group;
use crate::bytes::push_text;
use crate::columns::{push_edges, push_keys, push_shares};
use crate::frame::{
    push_caption, push_lanes, push_legend, push_sheet, push_strip_name, push_ticks,
};
use crate::shapes::across;
use crate::sizes::{push_bars, push_note};
use batch_history::Batch;
use job_names::Name;
use report_reader::RawReport;
use report_shares::{shares, width_of};
use std::alloc::{AllocError, Global};

/// The number of entries in all batches.
fn count_calls(book: &[Batch]) -> usize
    requires { length (flat book.now) < 2 ^ 64 }
    ensures { result ≡ length (flat book.now) }
{
    let mut count = 0;
    for batch in book {
        count += batch.entries().len();
    }
    count
}

/// The text of the drawing with boxes.
#[tactic(auto, unfolding(crate::specs::Code::Texts::drawing_text))]
fn box_drawing(
    alloc: Global,
    names: &[Name],
    raw: &RawReport,
    calls: usize,
) -> Result<Vec<u8>, AllocError>
    requires rows { length raw.now.rows ≤ 2000 }
    requires calls { calls ≡ length (flat raw.now.history) }
    requires few { calls ≤ 2000 }
    requires batches { length raw.now.history ≤ 2000 }
    requires numbers { HaveNames (map spelling names.now) (flat raw.now.history) }
    requires spelled { AreSpelled (map spelling names.now) }
    ensures { IfOk result (λ text. text.items ≡ drawing_text (map spelling names.now) (span_of (length raw.now.rows))
        (scale_of (span_of (length raw.now.rows))) raw.now) }
{
    let rows = raw.rows();
    let book = raw.batches();
    let workers = raw.workers();
    let leaves = rows.len() as u32;
    let span = 2 * leaves + 1;
    let scale = 1 + 960 / span;
    let foot = 48 + 32 * workers;
    let right = across(scale, span);
    let mut text = Vec::new(alloc);
    push_sheet(&mut text, right + 24, (foot + 140) as u64)?;
    push_caption(&mut text, workers, rows.len(), calls, book.len())?;
    push_ticks(&mut text, scale, foot, leaves)?;
    push_lanes(&mut text, right, workers)?;
    push_group(alloc, &mut text, scale, names, book, rows)?;
    push_strip_name(&mut text, foot)?;
    push_brackets(alloc, &mut text, Strip { scale, foot }, names, book)?;
    push_legend(&mut text, foot)?;
    push_text(&mut text, b"</svg>\n")?;
    Ok(text)
}

/// The text of the drawing with columns.
#[tactic(auto, unfolding(crate::specs::Code::Texts::columns_text))]
fn column_drawing(alloc: Global, raw: &RawReport, calls: usize) -> Result<Vec<u8>, AllocError>
    requires rows { length raw.now.rows < 2 ^ 32 }
    requires calls { calls ≡ length (flat raw.now.history) }
    requires batches { length raw.now.history < 2 ^ 32 }
    ensures { IfOk result (λ text. text.items ≡ columns_text raw.now) }
{
    let rows = raw.rows();
    let book = raw.batches();
    let workers = raw.workers();
    let leaves = rows.len() as u32;
    let width = width_of(leaves);
    let foot = 48 + 32 * workers;
    let shares = shares(alloc, workers, rows, book)?;
    let mut text = Vec::new(alloc);
    push_sheet(&mut text, 1080, (foot + 752) as u64)?;
    push_caption(&mut text, workers, rows.len(), calls, book.len())?;
    push_edges(&mut text, foot, width, leaves)?;
    push_lanes(&mut text, 1056, workers)?;
    push_shares(&mut text, width, shares.as_slice())?;
    push_keys(&mut text, foot, width)?;
    push_note(&mut text, foot)?;
    push_bars(&mut text, foot + 96, book)?;
    push_text(&mut text, b"</svg>\n")?;
    Ok(text)
}

/// Whether a box is drawn for each row of a report with this many calls.
fn has_boxes(raw: &RawReport, calls: usize) -> bool
    requires { calls ≡ length (flat raw.now.history) }
    ensures { result ≡ has_boxes raw.now }
{
    raw.rows().len() <= 2000 && calls <= 2000
}

/// The picture of a raw report, whose objects with the numbers 1, 2, and so on have these names.
///
/// Time: linear in the report, but that the call of each of at most 2000 rows is looked for among at most 2000 calls,
/// and that of more rows each is looked at in each of 120 columns.
pub fn picture(alloc: Global, names: &[Name], raw: &RawReport) -> Result<Vec<u8>, AllocError>
    requires few { CanBeDrawn raw.now }
    requires numbers { HaveNames (map spelling names.now) (flat raw.now.history) }
    requires spelled { AreSpelled (map spelling names.now) }
    ensures { IfOk result (λ text. text.items ≡ picture (map spelling names.now) raw.now) }
{
    let calls = count_calls(raw.batches());
    if has_boxes(raw, calls) {
        box_drawing(alloc, names, raw, calls)
    } else {
        column_drawing(alloc, raw, calls)
    }
}
