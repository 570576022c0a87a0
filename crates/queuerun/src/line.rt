//! The lines of a batch, as they are printed.
ghost use Rattle.std.specs.Prelude.{◌≡◌, ◌++◌, ◌≤◌, length, OnOk, string_bytes};
ghost use Rattle.limits.specs.declared.TheConstants.{MOST_BATCH_CALLS};
ghost use Rattle.seq_objects.specs.Words.{reply_words};
ghost use Rattle.queuerun.specs.Text.{call_words, call_line};
ghost use Rattle.queuerun.specs.Code.{call_lines};

use batch_script::push_line_front;
use batched_queue::FifoCall;
use itoa::{Buffer, Integer};
use seq_objects::Reply;
use std::alloc::AllocError;

/// Appends a number to a text.
fn push_number<I: Integer>(text: &mut String, number: I) -> Result<(), AllocError>
    ensures { OnOk result (string_bytes text.new ≡ string_bytes text.old ++ I.text number) }
{
    text.push_str(Buffer::new().format(number))
}

/// Appends a call as it is written.
fn push_call(text: &mut String, item: Option<u32>) -> Result<(), AllocError>
    ensures { OnOk result (string_bytes text.new ≡ string_bytes text.old ++ call_words item) }
{
    match item {
        Some(item) => {
            text.push_str("put ")?;
            push_number(text, item)
        }
        None => text.push_str("get"),
    }
}

/// Appends the words of a reply.
fn push_reply(text: &mut String, reply: Reply) -> Result<(), AllocError>
    ensures { OnOk result (string_bytes text.new ≡ string_bytes text.old ++ reply_words reply) }
{
    match reply {
        Reply::Number(number) => push_number(text, number),
        Reply::Unit => text.push_str("ok"),
        Reply::Empty => text.push_str("empty"),
        Reply::Yes => text.push_str("yes"),
        Reply::No => text.push_str("no"),
    }
}

/// Appends the line of a call.
fn push_line(
    text: &mut String,
    batch: u32,
    place: u32,
    call: &FifoCall,
    reply: Reply,
) -> Result<(), AllocError>
    ensures { OnOk result (string_bytes text.new
        ≡ string_bytes text.old ++ call_line batch place call.now reply) }
{
    push_line_front(text, batch, place, call.worker)?;
    push_call(text, call.item)?;
    text.push_str(" -> ")?;
    push_reply(text, reply)?;
    text.push_str("\n")
}

/// Appends the lines of a batch.
pub(crate) fn push_lines(
    text: &mut String,
    batch: u32,
    calls: &[FifoCall],
    replies: &[Reply],
) -> Result<(), AllocError>
    requires few { length calls.now ≤ MOST_BATCH_CALLS }
    requires replies { length replies.now ≡ length calls.now }
    ensures { OnOk result (string_bytes text.new
        ≡ string_bytes text.old ++ call_lines batch 0 calls.now replies.now) }
{
    for (place, call) in calls.iter().enumerate() {
        push_line(text, batch, place as u32, call, replies[place])?;
    }
    Ok(())
}
