//! The batches below the lanes: calls side by side, under the bracket of their batch.
ghost use Rattle.std.specs.Prelude.{◌≡◌, ◌++◌, ◌+◌, ◌*◌, ◌-◌, ◌<◌, ◌≤◌, ◌^◌, length, map, OnOk};
ghost use Rattle.job_names.specs.Names.{AreSpelled, spelling};
ghost use Rattle.seq_objects.specs.Objects.{number_of};
ghost use Rattle.seq_objects.specs.Words.{reply_words};
ghost use Rattle.batch_history.specs.Book.{flat};
ghost use Rattle.batch_history.specs.Text.{HaveNames};
ghost use Rattle.report_picture.specs.Boxes.{across, brackets_from};
ghost use Rattle.report_picture.specs.Code.Texts.{call_front, served_text, call_text, calls_text, number_text, line_text, under_text, bracket_line, bracket_text, brackets_text};

use crate::bytes::{push_escaped, push_number, push_text};
use crate::shapes::{across, batch_colour, push_rect, push_words};
use crate::words::{op_words, reply_words};
use batch_history::{Batch, Entry};
use job_names::Name;
use std::alloc::{AllocError, Global};

/// Where the batches are drawn: the pixels that a call takes, half of that, and the bottom of the lanes.
#[derive(Clone, Copy)]
pub(crate) struct Strip {
    pub scale: u32,
    pub foot: u32,
}

/// Appends the front of a call. `serial` calls of the book stand before it.
#[tactic(auto, unfolding(crate::specs::Code::Texts::call_front))]
fn push_call_front(
    text: &mut Vec<u8>,
    strip: Strip,
    batch: u32,
    serial: u32,
) -> Result<(), AllocError>
    requires some { 1 ≤ strip.scale }
    requires scale { strip.scale ≤ 2000 }
    requires foot { strip.foot ≤ 2000 }
    ensures { OnOk result (text.new.items ≡ text.old.items ++ call_front strip.scale strip.foot batch serial) }
{
    let left = across(2 * strip.scale, serial);
    let top = (strip.foot + 44) as u64;
    let width = (2 * strip.scale - 1) as u64;
    push_rect(text, left, top, width, 20, batch_colour(batch))
}

/// Appends what a call asked for and what it got, and the end of its box.
#[tactic(auto, unfolding(crate::specs::Code::Texts::served_text))]
fn push_served(
    alloc: Global,
    text: &mut Vec<u8>,
    names: &[Name],
    entry: &Entry,
) -> Result<(), AllocError>
    requires number { number_of entry.now.op ≤ length names.now }
    requires spelled { AreSpelled (map spelling names.now) }
    ensures { OnOk result (text.new.items ≡ text.old.items ++ served_text (map spelling names.now) entry.now) }
{
    let op = op_words(alloc, names, entry.op)?;
    let reply = reply_words(alloc, entry.reply)?;
    text.extend_from_slice(b", ")?;
    push_escaped(text, op.as_bytes())?;
    text.extend_from_slice(b" -&gt; ")?;
    push_escaped(text, reply.as_bytes())?;
    push_text(text, b"</title>\n</rect>\n")
}

/// Appends a call. `serial` calls of the book stand before it.
#[tactic(auto, unfolding(crate::specs::Code::Texts::call_text))]
fn push_call(
    alloc: Global,
    text: &mut Vec<u8>,
    strip: Strip,
    batch: u32,
    place: u32,
    serial: u32,
    names: &[Name],
    entry: &Entry,
) -> Result<(), AllocError>
    requires number { number_of entry.now.op ≤ length names.now }
    requires spelled { AreSpelled (map spelling names.now) }
    requires some { 1 ≤ strip.scale }
    requires scale { strip.scale ≤ 2000 }
    requires foot { strip.foot ≤ 2000 }
    ensures { OnOk result (text.new.items ≡ text.old.items
        ++ call_text (map spelling names.now) strip.scale strip.foot batch place serial entry.now) }
{
    push_call_front(text, strip, batch, serial)?;
    push_number(text, b"<title>batch ", batch)?;
    push_number(text, b" place ", place)?;
    push_number(text, b": leaf ", entry.leaf)?;
    push_number(text, b" of worker ", entry.worker)?;
    push_served(alloc, text, names, entry)
}

/// Appends the calls of a batch, before which `first` calls of the book stand.
fn push_calls(
    alloc: Global,
    text: &mut Vec<u8>,
    strip: Strip,
    batch: u32,
    first: u32,
    names: &[Name],
    entries: &[Entry],
) -> Result<(), AllocError>
    requires numbers { HaveNames (map spelling names.now) entries.now }
    requires spelled { AreSpelled (map spelling names.now) }
    requires some { 1 ≤ strip.scale }
    requires scale { strip.scale ≤ 2000 }
    requires foot { strip.foot ≤ 2000 }
    requires few { first + length entries.now < 2 ^ 32 }
    ensures { OnOk result (text.new.items ≡ text.old.items
        ++ calls_text (map spelling names.now) strip.scale strip.foot batch 0 first entries.now) }
{
    for (place, entry) in entries.iter().enumerate() {
        let place = place as u32;
        push_call(
            alloc,
            text,
            strip,
            batch,
            place,
            first + place,
            names,
            entry,
        )?;
    }
    Ok(())
}

/// Appends the number of a batch.
#[tactic(auto, unfolding(crate::specs::Code::Texts::number_text))]
fn push_batch_number(text: &mut Vec<u8>, left: u64, base: u64, batch: u32) -> Result<(), AllocError>
    ensures { OnOk result (text.new.items ≡ text.old.items ++ number_text left base batch) }
{
    push_words(text, left, base)?;
    push_number(text, b"", batch)?;
    text.extend_from_slice(b"</text>\n")
}

/// Appends the line of a bracket.
#[tactic(auto, unfolding(crate::specs::Code::Texts::line_text))]
fn push_line(text: &mut Vec<u8>, left: u64, top: u64, right: u64) -> Result<(), AllocError>
    ensures { OnOk result (text.new.items ≡ text.old.items ++ line_text left top right) }
{
    push_number(text, b"<path d=\"M", left)?;
    push_number(text, b" ", top)?;
    push_number(text, b"v6H", right)?;
    push_text(text, b"v-6\" stroke=\"#57606a\" fill=\"none\"></path>\n")
}

/// Appends what stands under the calls of a batch.
fn push_under(
    text: &mut Vec<u8>,
    foot: u32,
    left: u64,
    right: u64,
    batch: u32,
) -> Result<(), AllocError>
    requires foot { foot ≤ 2000 }
    ensures { OnOk result (text.new.items ≡ text.old.items ++ under_text foot left right batch) }
{
    push_line(text, left, (foot + 67) as u64, right)?;
    if right.saturating_sub(left) >= 32 {
        push_batch_number(text, left, (foot + 89) as u64, batch)?;
    }
    Ok(())
}

/// Appends what stands under the calls of a batch, before which `first` calls of the book stand.
#[tactic(auto, unfolding(crate::specs::Code::Texts::bracket_line))]
fn push_bracket_line(
    text: &mut Vec<u8>,
    strip: Strip,
    batch: u32,
    first: u32,
    count: u32,
) -> Result<(), AllocError>
    requires scale { strip.scale ≤ 2000 }
    requires foot { strip.foot ≤ 2000 }
    requires few { first + count < 2 ^ 32 }
    ensures { OnOk result (text.new.items ≡ text.old.items
        ++ bracket_line strip.scale strip.foot batch first count) }
{
    let left = across(2 * strip.scale, first);
    let right = across(2 * strip.scale, first + count) - 3;
    push_under(text, strip.foot, left, right, batch)
}

/// Appends the bracket of a batch, before which `first` calls of the book stand.
#[tactic(auto, unfolding(crate::specs::Code::Texts::bracket_text))]
fn push_bracket(
    alloc: Global,
    text: &mut Vec<u8>,
    strip: Strip,
    batch: u32,
    first: u32,
    names: &[Name],
    entries: &[Entry],
) -> Result<(), AllocError>
    requires numbers { HaveNames (map spelling names.now) entries.now }
    requires spelled { AreSpelled (map spelling names.now) }
    requires some { 1 ≤ strip.scale }
    requires scale { strip.scale ≤ 2000 }
    requires foot { strip.foot ≤ 2000 }
    requires few { first + length entries.now < 2 ^ 32 }
    ensures { OnOk result (text.new.items ≡ text.old.items ++ bracket_text (map spelling names.now) strip.scale strip.foot
        (record { batch = batch; first = first; entries = entries.now })) }
{
    push_number(text, b"<g><title>batch ", batch)?;
    text.extend_from_slice(b"</title>\n")?;
    push_calls(alloc, text, strip, batch, first, names, entries)?;
    push_bracket_line(text, strip, batch, first, entries.len() as u32)?;
    push_text(text, b"</g>\n")
}

/// Appends the brackets of a book.
#[tactic(auto, unfolding(crate::specs::Code::Texts::brackets_text))]
pub(crate) fn push_brackets(
    alloc: Global,
    text: &mut Vec<u8>,
    strip: Strip,
    names: &[Name],
    book: &[Batch],
) -> Result<(), AllocError>
    requires numbers { HaveNames (map spelling names.now) (flat book.now) }
    requires spelled { AreSpelled (map spelling names.now) }
    requires some { 1 ≤ strip.scale }
    requires scale { strip.scale ≤ 2000 }
    requires foot { strip.foot ≤ 2000 }
    requires few_batches { length book.now < 2 ^ 32 }
    requires few { length (flat book.now) < 2 ^ 32 }
    ensures { OnOk result (text.new.items ≡ text.old.items
        ++ brackets_text (map spelling names.now) strip.scale strip.foot (brackets_from 0 0 book.now)) }
{
    let mut first = 0;
    for (number, batch) in book.iter().enumerate() {
        let entries = batch.entries();
        push_bracket(alloc, text, strip, number as u32, first, names, entries)?;
        first += entries.len() as u32;
    }
    Ok(())
}
