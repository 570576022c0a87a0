//! The lines of a batch, as they are printed.
ghost use Rattle.std.specs.Prelude.{◌≡◌, ◌++◌, ◌≤◌, length, OnOk, string_bytes};
ghost use Rattle.limits.specs.declared.TheConstants.{MOST_BATCH_CALLS};
ghost use Rattle.bulkrun.specs.Text.{kind_words, key_words, answer_words, call_line};
ghost use Rattle.bulkrun.specs.Code.{call_lines};

use batch_script::push_line_front;
use bulk_calls::{BulkCall, BulkKind, Replies};
use itoa::Buffer;
use std::alloc::AllocError;

/// Appends a kind of call as it is written.
fn push_kind(text: &mut String, kind: BulkKind) -> Result<(), AllocError>
    ensures { OnOk result (string_bytes text.new ≡ string_bytes text.old ++ kind_words kind) }
{
    text.push_str(match kind {
        BulkKind::Insert => "insert",
        BulkKind::Remove => "remove",
        BulkKind::Find => "find",
    })
}

/// Appends keys, each behind a space.
fn push_keys(text: &mut String, keys: &[u32]) -> Result<(), AllocError>
    ensures { OnOk result (string_bytes text.new ≡ string_bytes text.old ++ key_words keys.now) }
{
    let mut buffer = Buffer::new();
    for key in keys {
        text.push_str(" ")?;
        text.push_str(buffer.format(*key))?;
    }
    Ok(())
}

/// Appends answers, each behind a space.
fn push_answers(text: &mut String, answers: &[bool]) -> Result<(), AllocError>
    ensures { OnOk result (string_bytes text.new ≡ string_bytes text.old ++ answer_words answers.now) }
{
    for answer in answers {
        text.push_str(if *answer { " yes" } else { " no" })?;
    }
    Ok(())
}

/// Appends the line of a call.
fn push_line(
    text: &mut String,
    batch: u32,
    place: u32,
    call: &BulkCall,
    replies: &Replies,
) -> Result<(), AllocError>
    ensures { OnOk result (string_bytes text.new
        ≡ string_bytes text.old ++ call_line batch place call.now replies.now) }
{
    push_line_front(text, batch, place, call.worker())?;
    push_kind(text, call.what().kind())?;
    push_keys(text, call.what().keys())?;
    text.push_str(" ->")?;
    push_answers(text, replies.answers())?;
    text.push_str("\n")
}

/// Appends the lines of a batch.
pub(crate) fn push_lines(
    text: &mut String,
    batch: u32,
    calls: &[BulkCall],
    replies: &[Replies],
) -> Result<(), AllocError>
    requires few { length calls.now ≤ MOST_BATCH_CALLS }
    requires replies { length replies.now ≡ length calls.now }
    ensures { OnOk result (string_bytes text.new
        ≡ string_bytes text.old ++ call_lines batch 0 calls.now replies.now) }
{
    for (place, call) in calls.iter().enumerate() {
        push_line(text, batch, place as u32, call, &replies[place])?;
    }
    Ok(())
}
