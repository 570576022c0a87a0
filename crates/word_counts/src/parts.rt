//! A text is cut into parts that end at line ends.
ghost use Rattle.std.specs.Prelude.{◌≡◌, ◌<◌, ◌≤◌, length, IfOk};
ghost use Rattle.word_counts.specs.Parts.{AreParts, IsLineEnd};

use crate::counts::WordCounts;
use shared_calls::Caller;
use std::alloc::{AllocError, Global};

/// A caller, and where its part begins and ends.
#[derive(Drop)]
pub struct Part {
    pub caller: Caller<WordCounts>,
    pub from: usize,
    pub to: usize,
}

/// The first place from `place` on behind a line feed, or the text's end; the text's beginning is such a place too.
fn line_end(text: &[u8], place: usize) -> usize
    requires { place ≤ length text.now }
    ensures within { (place ≤ result) × (result ≤ length text.now) }
    ensures ends { IsLineEnd text.now result }
{
    let mut end = place;
    while 0 < end && end < text.len() && text[end - 1] != b'\n' {
        end += 1;
    }
    end
}

/// A part for each caller, of about the same length.
pub(crate) fn parts_of(
    alloc: Global,
    callers: Vec<Caller<WordCounts>>,
    text: &[u8],
) -> Result<Vec<Part>, AllocError>
    requires { 0 < length callers.items }
    ensures { IfOk result (λ parts. AreParts (λ part. part.caller) text.now 0 (length text.now) parts.items callers.items) }
{
    let mut parts = Vec::with_capacity(alloc, callers.len())?;
    let mut left = callers.len();
    let mut from = 0;
    for caller in callers {
        let to = line_end(text, from + (text.len() - from) / left);
        parts.push(Part { caller, from, to })?;
        from = to;
        left -= 1;
    }
    Ok(parts)
}
