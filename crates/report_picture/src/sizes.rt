//! The batches by their numbers of calls, as bars.
ghost use Rattle.std.specs.Prelude.{◌≡◌, ◌++◌, ◌+◌, ◌*◌, ◌<◌, ◌≤◌, ◌^◌, length, OnOk};
ghost use Rattle.limits.specs.declared.TheConstants.{MOST_WORKERS};
ghost use Rattle.report_picture.specs.Boxes.{sized, bar_width};
ghost use Rattle.report_picture.specs.Code.Texts.{bar_end, bar_text, bars_text, note_text};

use crate::bytes::{push_number, push_text};
use crate::shapes::{push_plain, push_words};
use batch_history::Batch;
use limits::MOST_WORKERS;
use std::alloc::AllocError;

/// How many batches of a book have this many calls.
fn count_sized(book: &[Batch], size: usize) -> usize
    ensures count { result ≡ sized size book.now }
    ensures few { result ≤ length book.now }
{
    let mut count = 0;
    for batch in book {
        if batch.entries().len() == size {
            count += 1;
        }
    }
    count
}

/// The width of the bar of so many batches, out of all.
fn bar_width(count: usize, batches: usize) -> u64
    requires count { count < 2 ^ 32 }
    requires batches { batches < 2 ^ 32 }
    ensures width { result ≡ bar_width count batches }
    ensures small { result ≤ 640 * count }
{
    640 * count as u64 / (batches as u64 + 1)
}

/// Appends the count of a bar, and the end of the bar.
#[tactic(auto, unfolding(crate::specs::Code::Texts::bar_end))]
fn push_bar_end(text: &mut Vec<u8>, left: u64, base: u64, count: usize) -> Result<(), AllocError>
    ensures { OnOk result (text.new.items ≡ text.old.items ++ bar_end left base count) }
{
    push_words(text, left, base)?;
    push_number(text, b"", count)?;
    push_text(text, b"</text>\n</g>\n")
}

/// Appends a bar, where the bars begin at `top`.
#[tactic(auto, unfolding(crate::specs::Code::Texts::plain_text, crate::specs::Code::Texts::bar_text))]
fn push_bar(
    text: &mut Vec<u8>,
    top: u32,
    mark: u32,
    count: usize,
    batches: usize,
) -> Result<(), AllocError>
    requires top { top ≤ 2000 }
    requires mark { mark ≤ MOST_WORKERS }
    requires count { count < 2 ^ 32 }
    requires batches { batches < 2 ^ 32 }
    ensures { OnOk result (text.new.items ≡ text.old.items ++ bar_text top mark count batches) }
{
    let base = (top + 12 + 20 * mark) as u64;
    let width = bar_width(count, batches);
    text.extend_from_slice(b"<g>")?;
    push_words(text, 16, base)?;
    push_number(text, b"", mark + 1)?;
    text.extend_from_slice(b"</text>\n")?;
    push_plain(text, 96, (top + 20 * mark) as u64, width, 14, b"#6e7781")?;
    push_bar_end(text, 104 + width, base, count)
}

/// Appends the bars of a book, one for each number of calls from 1 to `MOST_WORKERS`.
#[tactic(auto, unfolding(crate::specs::Code::Texts::bars_text), using(crate::proofs::Ranges::flat_more))]
pub(crate) fn push_bars(text: &mut Vec<u8>, top: u32, book: &[Batch]) -> Result<(), AllocError>
    requires top { top ≤ 2000 }
    requires batches { length book.now < 2 ^ 32 }
    ensures { OnOk result (text.new.items ≡ text.old.items ++ bars_text top book.now) }
{
    for mark in 0..MOST_WORKERS {
        let count = count_sized(book, mark as usize + 1);
        push_bar(text, top, mark, count, book.len())?;
    }
    Ok(())
}

/// Appends the words over the bars.
#[tactic(auto, unfolding(crate::specs::Code::Texts::note_text))]
pub(crate) fn push_note(text: &mut Vec<u8>, foot: u32) -> Result<(), AllocError>
    requires { foot ≤ 2000 }
    ensures { OnOk result (text.new.items ≡ text.old.items ++ note_text foot) }
{
    push_words(text, 16, (foot + 84) as u64)?;
    let words =
        b"batches by their number of calls (past 2000 leaves no box is drawn for a leaf)</text>\n";
    text.extend_from_slice(words)
}
