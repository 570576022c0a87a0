//! The elements of which the picture is made, and where they stand.
ghost use Rattle.std.specs.Prelude.{◌≡◌, ◌++◌, ◌*◌, OnOk};
ghost use Rattle.report_picture.specs.Boxes.{across, batch_colour};
ghost use Rattle.report_picture.specs.Code.Texts.{plain_text, rect_front, words_front};

use crate::bytes::{push_escaped, push_number};
use std::alloc::AllocError;

/// A product that fits.
pub(crate) fn product(factor: u32, number: u32) -> u64
    ensures { result ≡ factor * number }
{
    factor as u64 * number as u64
}

/// The place of a tick from the left, where a tick takes `scale` pixels.
pub(crate) fn across(scale: u32, tick: u32) -> u64
    ensures { result ≡ across scale tick }
{
    96 + product(scale, tick)
}

/// The colour of a batch.
pub(crate) fn batch_colour(batch: u32) -> &'static [u8]
    ensures { result.now ≡ batch_colour batch }
{
    match batch % 5 {
        0 => b"#0072b2",
        1 => b"#d55e00",
        2 => b"#009e73",
        3 => b"#882255",
        _ => b"#7a3e00",
    }
}

/// Appends the front of a rectangle.
#[tactic(auto, unfolding(crate::specs::Code::Texts::rect_front))]
pub(crate) fn push_rect(
    text: &mut Vec<u8>,
    left: u64,
    top: u64,
    width: u64,
    height: u64,
    colour: &[u8],
) -> Result<(), AllocError>
    ensures { OnOk result (text.new.items ≡ text.old.items ++ rect_front left top width height colour.now) }
{
    push_number(text, b"<rect x=\"", left)?;
    push_number(text, b"\" y=\"", top)?;
    push_number(text, b"\" width=\"", width)?;
    push_number(text, b"\" height=\"", height)?;
    text.extend_from_slice(b"\" fill=\"")?;
    push_escaped(text, colour)?;
    text.extend_from_slice(b"\">")
}

/// Appends a rectangle without a title.
#[tactic(auto, unfolding(crate::specs::Code::Texts::plain_text))]
pub(crate) fn push_plain(
    text: &mut Vec<u8>,
    left: u64,
    top: u64,
    width: u64,
    height: u64,
    colour: &[u8],
) -> Result<(), AllocError>
    ensures { OnOk result (text.new.items ≡ text.old.items ++ plain_text left top width height colour.now) }
{
    push_rect(text, left, top, width, height, colour)?;
    text.extend_from_slice(b"</rect>\n")
}

/// Appends the front of words with their left end at this place.
#[tactic(auto, unfolding(crate::specs::Code::Texts::words_front))]
pub(crate) fn push_words(text: &mut Vec<u8>, left: u64, base: u64) -> Result<(), AllocError>
    ensures { OnOk result (text.new.items ≡ text.old.items ++ words_front left base) }
{
    push_number(text, b"<text x=\"", left)?;
    push_number(text, b"\" y=\"", base)?;
    text.extend_from_slice(b"\">")
}
