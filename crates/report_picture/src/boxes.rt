//! The boxes of the rows.
ghost use Rattle.std.specs.Prelude.{◌≡◌, ◌++◌, ◌-◌, ◌<◌, ◌≤◌, ◌^◌, length, map, OnOk};
ghost use Rattle.job_names.specs.Names.{AreSpelled, spelling};
ghost use Rattle.seq_objects.specs.Objects.{number_of};
ghost use Rattle.batch_history.specs.Book.{flat};
ghost use Rattle.batch_history.specs.Text.{HaveNames};
ghost use Rattle.batch_history.specs.Places.{place_of};
ghost use Rattle.report_picture.specs.Code.Texts.{rect_front, work_text, called_text, ticks_text, box_text, boxes_text, group_text};

use crate::bytes::{push_escaped, push_number, push_text};
use crate::find::place_of;
use crate::shapes::{batch_colour, push_rect};
use crate::words::op_words;
use batch_history::{Batch, Place, Row};
use job_names::Name;
use std::alloc::{AllocError, Global};

/// Appends the end of a row's title, and that of its box.
#[tactic(auto, unfolding(crate::specs::Code::Texts::ticks_text))]
fn push_ticks(text: &mut Vec<u8>, row: &Row) -> Result<(), AllocError>
    ensures { OnOk result (text.new.items ≡ text.old.items ++ ticks_text row.now) }
{
    push_number(text, b", value ", row.value)?;
    push_number(text, b", ticks ", row.start)?;
    push_number(text, b" to ", row.end)?;
    text.extend_from_slice(b"</title>\n</rect>\n")
}

/// Appends the front of a rectangle from the start of a row to its end.
fn push_span(
    text: &mut Vec<u8>,
    row: &Row,
    top: u64,
    height: u64,
    colour: &[u8],
) -> Result<(), AllocError>
    ensures { OnOk result (text.new.items ≡ text.old.items
        ++ rect_front row.now.start top (row.now.end - row.now.start) height colour.now) }
{
    let width = row.end.saturating_sub(row.start);
    push_rect(text, row.start, top, width, height, colour)
}

/// Appends the box of a row of work.
#[tactic(auto, unfolding(crate::specs::Code::Texts::work_text))]
fn push_work(text: &mut Vec<u8>, row: &Row) -> Result<(), AllocError>
    ensures { OnOk result (text.new.items ≡ text.old.items ++ work_text row.now) }
{
    let top = 48 + 32 * row.worker as u64 + 9;
    push_span(text, row, top, 10, b"#6e7781")?;
    push_number(text, b"<title>leaf ", row.leaf)?;
    text.extend_from_slice(b": work")?;
    push_ticks(text, row)
}

/// Appends the box of a row whose call has this place.
#[tactic(auto, unfolding(crate::specs::Code::Texts::called_text))]
fn push_called(
    alloc: Global,
    text: &mut Vec<u8>,
    names: &[Name],
    place: &Place,
    row: &Row,
) -> Result<(), AllocError>
    requires number { number_of place.now.entry.op ≤ length names.now }
    requires spelled { AreSpelled (map spelling names.now) }
    ensures { OnOk result (text.new.items ≡ text.old.items ++ called_text (map spelling names.now) place.now row.now) }
{
    let top = 48 + 32 * row.worker as u64 + 4;
    let op = op_words(alloc, names, place.entry.op)?;
    push_span(text, row, top, 20, batch_colour(place.batch))?;
    push_number(text, b"<title>leaf ", row.leaf)?;
    text.extend_from_slice(b": ")?;
    push_escaped(text, op.as_bytes())?;
    push_number(text, b", batch ", place.batch)?;
    push_ticks(text, row)
}

/// Appends the box of a row.
fn push_box(
    alloc: Global,
    text: &mut Vec<u8>,
    names: &[Name],
    book: &[Batch],
    row: &Row,
) -> Result<(), AllocError>
    requires numbers { HaveNames (map spelling names.now) (flat book.now) }
    requires spelled { AreSpelled (map spelling names.now) }
    requires few_batches { length book.now < 2 ^ 32 }
    requires few_entries { length (flat book.now) < 2 ^ 32 }
    ensures { OnOk result (text.new.items
        ≡ text.old.items ++ box_text (map spelling names.now) (place_of book.now row.now.leaf) row.now) }
{
    match place_of(book, row.leaf) {
        None => push_work(text, row),
        Some(place) => push_called(alloc, text, names, &place, row),
    }
}

/// Appends the boxes of rows.
#[tactic(auto, unfolding(crate::specs::Code::Texts::boxes_text))]
fn push_boxes(
    alloc: Global,
    text: &mut Vec<u8>,
    names: &[Name],
    book: &[Batch],
    rows: &[Row],
) -> Result<(), AllocError>
    requires numbers { HaveNames (map spelling names.now) (flat book.now) }
    requires spelled { AreSpelled (map spelling names.now) }
    requires few_batches { length book.now < 2 ^ 32 }
    requires few_entries { length (flat book.now) < 2 ^ 32 }
    ensures { OnOk result (text.new.items ≡ text.old.items ++ boxes_text (map spelling names.now) book.now rows.now) }
{
    for row in rows {
        push_box(alloc, text, names, book, row)?;
    }
    Ok(())
}

/// Appends the boxes of rows, in ticks of `scale` pixels from the left end of the lanes on.
#[tactic(auto, unfolding(crate::specs::Code::Texts::group_text))]
pub(crate) fn push_group(
    alloc: Global,
    text: &mut Vec<u8>,
    scale: u32,
    names: &[Name],
    book: &[Batch],
    rows: &[Row],
) -> Result<(), AllocError>
    requires numbers { HaveNames (map spelling names.now) (flat book.now) }
    requires spelled { AreSpelled (map spelling names.now) }
    requires few_batches { length book.now < 2 ^ 32 }
    requires few_entries { length (flat book.now) < 2 ^ 32 }
    ensures { OnOk result (text.new.items ≡ text.old.items ++ group_text (map spelling names.now) scale book.now rows.now) }
{
    push_number(text, b"<g transform=\"translate(96 0) scale(", scale)?;
    text.extend_from_slice(b" 1)\">")?;
    push_boxes(alloc, text, names, book, rows)?;
    push_text(text, b"</g>\n")
}
