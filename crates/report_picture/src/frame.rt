//! What stands around the boxes and the brackets.
ghost use Rattle.std.specs.Prelude.{◌≡◌, ◌++◌, ◌+◌, ◌*◌, ◌/◌, ◌≤◌, ◌<◌, OnOk};
ghost use Rattle.limits.specs.declared.TheConstants.{MOST_WORKERS};
ghost use Rattle.report_picture.specs.Code.Texts.{light_end, lane_text, lanes_text, tick_text, mark_text, marks_text, strip_name, legend_text, sheet_top, sheet_front, caption_text};

use crate::bytes::{push_number, push_text};
use crate::shapes::{across, push_plain, push_words};
use std::alloc::AllocError;

/// Appends the start of the document, with its sizes, and the colour and the fonts of its words.
#[tactic(auto, unfolding(crate::specs::Code::Texts::sheet_top))]
fn push_top(text: &mut Vec<u8>, width: u64, height: u64) -> Result<(), AllocError>
    ensures { OnOk result (text.new.items ≡ text.old.items ++ sheet_top width height) }
{
    let start = b"<svg xmlns=\"http://www.w3.org/2000/svg\" version=\"1.1\" width=\"";
    push_number(text, start, width)?;
    push_number(text, b"\" height=\"", height)?;
    push_number(text, b"\" viewBox=\"0 0 ", width)?;
    push_number(text, b" ", height)?;
    let style = b"\" fill=\"#1b1f24\" font-family=\"sans-serif\" font-size=\"13\">";
    push_text(text, style)
}

/// Appends the front of the document, with its ground.
#[tactic(auto, unfolding(crate::specs::Code::Texts::plain_text, crate::specs::Code::Texts::sheet_front))]
pub(crate) fn push_sheet(text: &mut Vec<u8>, width: u64, height: u64) -> Result<(), AllocError>
    ensures { OnOk result (text.new.items ≡ text.old.items ++ sheet_front width height) }
{
    push_top(text, width, height)?;
    push_plain(text, 0, 0, width, height, b"#ffffff")
}

/// Appends the caption.
#[tactic(auto, unfolding(crate::specs::Code::Texts::caption_text))]
pub(crate) fn push_caption(
    text: &mut Vec<u8>,
    workers: u32,
    leaves: usize,
    calls: usize,
    batches: usize,
) -> Result<(), AllocError>
    ensures { OnOk result (text.new.items ≡ text.old.items ++ caption_text workers leaves calls batches) }
{
    push_words(text, 16, 28)?;
    push_number(text, b"workers ", workers)?;
    push_number(text, b" leaves ", leaves)?;
    push_number(text, b" calls ", calls)?;
    push_number(text, b" batches ", batches)?;
    text.extend_from_slice(b"</text>\n")
}

/// Appends the end of a light line, and of the group that it stands in.
#[tactic(auto, unfolding(crate::specs::Code::Texts::light_end))]
fn push_light_end(text: &mut Vec<u8>) -> Result<(), AllocError>
    ensures { OnOk result (text.new.items ≡ text.old.items ++ light_end) }
{
    text.extend_from_slice(b"\" stroke=\"#d0d7de\" fill=\"none\"></path>\n</g>\n")
}

/// Appends the name of a worker's lane, and the line under it.
#[tactic(auto, unfolding(crate::specs::Code::Texts::lane_text))]
fn push_lane(text: &mut Vec<u8>, right: u64, worker: u32) -> Result<(), AllocError>
    requires { worker ≤ MOST_WORKERS }
    ensures { OnOk result (text.new.items ≡ text.old.items ++ lane_text right worker) }
{
    let top = (48 + 32 * worker) as u64;
    text.extend_from_slice(b"<g>")?;
    push_words(text, 16, top + 19)?;
    push_number(text, b"worker ", worker)?;
    push_number(text, b"</text>\n<path d=\"M96 ", top + 30)?;
    push_number(text, b"H", right)?;
    push_light_end(text)
}

/// Appends the lanes.
#[tactic(auto, unfolding(crate::specs::Code::Texts::lanes_text), using(crate::proofs::Ranges::flat_more))]
pub(crate) fn push_lanes(text: &mut Vec<u8>, right: u64, workers: u32) -> Result<(), AllocError>
    requires { workers ≤ MOST_WORKERS }
    ensures { OnOk result (text.new.items ≡ text.old.items ++ lanes_text right workers) }
{
    for worker in 0..workers {
        push_lane(text, right, worker)?;
    }
    Ok(())
}

/// Appends a tick under the lanes, at this place from the left, and the line up from it.
#[tactic(auto, unfolding(crate::specs::Code::Texts::tick_text))]
fn push_tick(text: &mut Vec<u8>, left: u64, foot: u32, tick: u64) -> Result<(), AllocError>
    requires foot { foot ≤ 2000 }
    ensures { OnOk result (text.new.items ≡ text.old.items ++ tick_text left foot tick) }
{
    text.extend_from_slice(b"<g>")?;
    push_words(text, left, (foot + 16) as u64)?;
    push_number(text, b"", tick)?;
    push_number(text, b"</text>\n<path d=\"M", left)?;
    push_number(text, b" 46V", foot + 4)?;
    push_light_end(text)
}

/// Appends a tick as `push_tick` does, if it is below `ticks`.
pub(crate) fn push_mark(
    text: &mut Vec<u8>,
    left: u64,
    foot: u32,
    tick: u64,
    ticks: u64,
) -> Result<(), AllocError>
    requires foot { foot ≤ 2000 }
    ensures { OnOk result (text.new.items ≡ text.old.items ++ mark_text left foot tick ticks) }
{
    if tick < ticks {
        push_tick(text, left, foot, tick)?;
    }
    Ok(())
}

/// Appends the ticks that are numbered, where there are this many leaves.
#[tactic(auto, unfolding(crate::specs::Code::Texts::marks_text), using(crate::proofs::Ranges::flat_more))]
pub(crate) fn push_ticks(
    text: &mut Vec<u8>,
    scale: u32,
    foot: u32,
    leaves: u32,
) -> Result<(), AllocError>
    requires foot { foot ≤ 2000 }
    requires leaves { leaves ≤ 2000 }
    ensures { OnOk result (text.new.items ≡ text.old.items ++ marks_text scale foot leaves) }
{
    let step = (2 * leaves + 1) / 8 + 1;
    for mark in 0..8 {
        let tick = mark * step;
        let left = across(scale, tick);
        push_mark(text, left, foot, tick as u64, (2 * leaves) as u64)?;
    }
    Ok(())
}

/// Appends the name of the strip with the batches.
#[tactic(auto, unfolding(crate::specs::Code::Texts::strip_name))]
pub(crate) fn push_strip_name(text: &mut Vec<u8>, foot: u32) -> Result<(), AllocError>
    requires { foot ≤ 2000 }
    ensures { OnOk result (text.new.items ≡ text.old.items ++ strip_name foot) }
{
    push_words(text, 16, (foot + 59) as u64)?;
    text.extend_from_slice(b"batches</text>\n")
}

/// Appends what the two kinds of boxes are.
#[tactic(auto, unfolding(crate::specs::Code::Texts::plain_text, crate::specs::Code::Texts::legend_text))]
pub(crate) fn push_legend(text: &mut Vec<u8>, foot: u32) -> Result<(), AllocError>
    requires { foot ≤ 2000 }
    ensures { OnOk result (text.new.items ≡ text.old.items ++ legend_text foot) }
{
    let base = (foot + 123) as u64;
    text.extend_from_slice(b"<g>")?;
    push_plain(text, 96, (foot + 113) as u64, 24, 10, b"#6e7781")?;
    push_words(text, 128, base)?;
    text.extend_from_slice(b"work</text>\n")?;
    push_plain(text, 192, (foot + 108) as u64, 24, 20, b"#0072b2")?;
    push_words(text, 224, base)?;
    push_text(text, b"a call, in the colour of its batch</text>\n</g>\n")
}
