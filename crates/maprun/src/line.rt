//! The lines of a batch, as they are printed.
ghost use Rattle.std.specs.Prelude.{◌≡◌, ◌++◌, ◌≤◌, length, OnOk, codes, string_bytes};
ghost use Rattle.std.specs.Fmt.{decimal};
ghost use Rattle.limits.specs.declared.TheConstants.{MOST_BATCH_CALLS};
ghost use Rattle.seq_objects.specs.Words.{reply_words};
ghost use Rattle.maprun.specs.Text.{call_words, call_line};
ghost use Rattle.maprun.specs.Code.{call_lines};

use batch_script::push_line_front;
use batched_map::{MapCall, MapOp};
use itoa::{Buffer, Integer};
use seq_objects::Reply;
use std::alloc::AllocError;

/// Appends a number to a text.
fn push_number<I: Integer>(text: &mut String, number: I) -> Result<(), AllocError>
    ensures { OnOk result (string_bytes text.new ≡ string_bytes text.old ++ I.text number) }
{
    text.push_str(Buffer::new().format(number))
}

/// Appends a word and a number.
fn push_asked(text: &mut String, word: &str, number: u32) -> Result<(), AllocError>
    ensures { OnOk result (string_bytes text.new ≡ string_bytes text.old ++ (word.now ++ decimal number)) }
{
    text.push_str(word)?;
    push_number(text, number)
}

/// Appends a call as it is written.
fn push_call(text: &mut String, what: MapOp) -> Result<(), AllocError>
    ensures { OnOk result (string_bytes text.new ≡ string_bytes text.old ++ call_words what) }
{
    match what {
        MapOp::Put(key, val) => {
            push_asked(text, "put ", key)?;
            push_asked(text, " ", val)
        }
        MapOp::Del(key) => push_asked(text, "del ", key),
        MapOp::Get(key) => push_asked(text, "get ", key),
        MapOp::Rank(key) => push_asked(text, "rank ", key),
        MapOp::Nth(index) => push_asked(text, "nth ", index),
    }
}

/// Appends the end of a line: what the call replied.
fn push_reply(text: &mut String, reply: Reply) -> Result<(), AllocError>
    ensures { OnOk result (string_bytes text.new
        ≡ string_bytes text.old ++ (codes " -> " ++ reply_words reply ++ codes "\n")) }
{
    match reply {
        Reply::Number(number) => {
            text.push_str(" -> ")?;
            push_number(text, number)?;
            text.push_str("\n")
        }
        Reply::Unit => text.push_str(" -> ok\n"),
        Reply::Empty => text.push_str(" -> empty\n"),
        Reply::Yes => text.push_str(" -> yes\n"),
        Reply::No => text.push_str(" -> no\n"),
    }
}

/// Appends the line of a call.
fn push_line(
    text: &mut String,
    batch: u32,
    place: u32,
    call: &MapCall,
    reply: Reply,
) -> Result<(), AllocError>
    ensures { OnOk result (string_bytes text.new
        ≡ string_bytes text.old ++ call_line batch place call.now reply) }
{
    push_line_front(text, batch, place, call.worker)?;
    push_call(text, call.what)?;
    push_reply(text, reply)
}

/// Appends the lines of a batch.
pub(crate) fn push_lines(
    text: &mut String,
    batch: u32,
    calls: &[MapCall],
    replies: &[Reply],
) -> Result<(), AllocError>
    requires few { length calls.now ≤ MOST_BATCH_CALLS }
    requires replies { length replies.now ≡ length calls.now }
    ensures { OnOk result (string_bytes text.new
        ≡ string_bytes text.old ++ call_lines batch 0 calls.now replies.now) }
{
    for (place, call) in calls.iter().enumerate() {
        push_line(text, batch, place as u32, call, replies[place])?;
    }
    Ok(())
}
