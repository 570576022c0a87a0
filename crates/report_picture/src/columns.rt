//! What each worker does in each column of ticks.
ghost use Rattle.std.specs.Prelude.{◌≡◌, ◌++◌, ◌+◌, ◌*◌, ◌-◌, ◌≤◌, ◌<◌, OnOk};
ghost use Rattle.report_picture.specs.Columns.{column_left, height_in};
ghost use Rattle.report_picture.specs.Code.Texts.{title_text, parts_text, share_text, shares_text, edges_text, key_front, keys_text};

use crate::bytes::{push_number, push_text};
use crate::frame::push_mark;
use crate::shapes::{product, push_plain, push_words};
use report_shares::Share;
use std::alloc::AllocError;

/// The place of a column from the left.
fn column_left(column: u32) -> u64
    ensures { result ≡ column_left column }
{
    96 + 8 * column as u64
}

/// The height of so many ticks out of a column, where this much of the lane is left.
fn height_in(room: u64, width: u32, ticks: u64) -> u64
    requires some { 1 ≤ width }
    ensures height { result ≡ height_in room width ticks }
    ensures within { result ≤ room }
{
    room.min(28 * ticks.min(width as u64) / width as u64)
}

/// How many ticks of its column a worker does nothing in.
fn idle(share: &Share) -> u64
    ensures { result ≡ share.now.to - share.now.from - share.now.work - share.now.calls }
{
    let ticks = share.to.saturating_sub(share.from);
    ticks.saturating_sub(share.work).saturating_sub(share.calls)
}

/// Appends the title of a share.
#[tactic(auto, unfolding(crate::specs::Code::Texts::title_text))]
fn push_title(text: &mut Vec<u8>, share: &Share) -> Result<(), AllocError>
    ensures { OnOk result (text.new.items ≡ text.old.items ++ title_text share.now) }
{
    push_number(text, b"<g><title>worker ", share.worker)?;
    push_number(text, b", ticks ", share.from)?;
    push_number(text, b" to ", share.to)?;
    push_number(text, b": work ", share.work)?;
    push_number(text, b", calls ", share.calls)?;
    push_number(text, b", idle ", idle(share))?;
    push_text(text, b"</title>\n")
}

/// Appends the rectangles of a share with these heights.
#[tactic(auto, unfolding(crate::specs::Code::Texts::parts_text))]
fn push_parts(
    text: &mut Vec<u8>,
    left: u64,
    foot: u64,
    all: u64,
    work: u64,
    calls: u64,
) -> Result<(), AllocError>
    requires all { all ≤ foot }
    requires parts { work + calls ≤ foot }
    ensures { OnOk result (text.new.items ≡ text.old.items ++ parts_text left foot all work calls) }
{
    push_plain(text, left, foot - all, 8, all, b"#eaeef2")?;
    push_plain(text, left, foot - work, 8, work, b"#6e7781")?;
    push_plain(text, left, foot - work - calls, 8, calls, b"#0072b2")
}

/// Appends a share, where columns are `width` ticks wide.
#[tactic(auto, unfolding(crate::specs::Code::Texts::share_text))]
fn push_share(text: &mut Vec<u8>, width: u32, share: &Share) -> Result<(), AllocError>
    requires { 1 ≤ width }
    ensures { OnOk result (text.new.items ≡ text.old.items ++ share_text width share.now) }
{
    let left = column_left(share.column);
    let foot = 48 + 32 * share.worker as u64 + 28;
    let all = height_in(28, width, share.to.saturating_sub(share.from));
    let work = height_in(28, width, share.work);
    let calls = height_in(28 - work, width, share.calls);
    push_title(text, share)?;
    push_parts(text, left, foot, all, work, calls)?;
    push_text(text, b"</g>\n")
}

/// Appends shares, where columns are `width` ticks wide.
#[tactic(auto, unfolding(crate::specs::Code::Texts::shares_text))]
pub(crate) fn push_shares(
    text: &mut Vec<u8>,
    width: u32,
    shares: &[Share],
) -> Result<(), AllocError>
    requires { 1 ≤ width }
    ensures { OnOk result (text.new.items ≡ text.old.items ++ shares_text width shares.now) }
{
    for share in shares {
        push_share(text, width, share)?;
    }
    Ok(())
}

/// Appends the first ticks of up to 8 columns, where columns are `width` ticks wide, and there are this many leaves.
#[tactic(auto, unfolding(crate::specs::Code::Texts::edges_text), using(crate::proofs::Ranges::flat_more))]
pub(crate) fn push_edges(
    text: &mut Vec<u8>,
    foot: u32,
    width: u32,
    leaves: u32,
) -> Result<(), AllocError>
    requires { foot ≤ 2000 }
    ensures { OnOk result (text.new.items ≡ text.old.items ++ edges_text foot width leaves) }
{
    for mark in 0..8 {
        let column = 15 * mark;
        let tick = product(column, width);
        push_mark(text, column_left(column), foot, tick, product(2, leaves))?;
    }
    Ok(())
}

/// Appends a colour, and the front of what it is.
#[tactic(auto, unfolding(crate::specs::Code::Texts::key_front))]
fn push_key(text: &mut Vec<u8>, left: u64, foot: u32, colour: &[u8]) -> Result<(), AllocError>
    requires left { left ≤ 2000 }
    requires foot { foot ≤ 2000 }
    ensures { OnOk result (text.new.items ≡ text.old.items ++ key_front left foot colour.now) }
{
    push_plain(text, left, (foot + 40) as u64, 24, 14, colour)?;
    push_words(text, left + 32, (foot + 52) as u64)
}

/// Appends what the three colours are, and how wide a column is.
#[tactic(auto, unfolding(crate::specs::Code::Texts::keys_text))]
pub(crate) fn push_keys(text: &mut Vec<u8>, foot: u32, width: u32) -> Result<(), AllocError>
    requires { foot ≤ 2000 }
    ensures { OnOk result (text.new.items ≡ text.old.items ++ keys_text foot width) }
{
    text.extend_from_slice(b"<g>")?;
    push_key(text, 96, foot, b"#6e7781")?;
    text.extend_from_slice(b"work</text>\n")?;
    push_key(text, 192, foot, b"#0072b2")?;
    text.extend_from_slice(b"calls</text>\n")?;
    push_key(text, 288, foot, b"#eaeef2")?;
    push_number(text, b"idle, of the ", width)?;
    push_text(text, b" ticks of a column</text>\n</g>\n")
}
