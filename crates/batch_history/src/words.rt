//! Appending words and numbers to a text.
ghost use Rattle.std.specs.Prelude.{◌≡◌, ◌++◌, OnOk, codes, string_bytes};
ghost use Rattle.seq_objects.specs.Words.{reply_words};

use itoa::{Buffer, Integer};
use seq_objects::Reply;
use std::alloc::AllocError;

/// Appends `words` and then the number in decimal.
#[inline(always)]
pub(crate) fn push_number<I: Integer>(
    text: &mut String,
    words: &str,
    number: I,
) -> Result<(), AllocError>
    ensures { OnOk result
        (string_bytes text.new ≡ string_bytes text.old ++ (words.now ++ I.text number)) }
{
    text.push_str(words)?;
    let mut buffer = Buffer::new();
    text.push_str(buffer.format(number))
}

/// Appends the end of an entry's line: an arrow, the words of the reply, and a line feed.
pub(crate) fn push_reply(text: &mut String, reply: Reply) -> Result<(), AllocError>
    ensures { OnOk result
        (string_bytes text.new ≡ string_bytes text.old ++ (codes " -> " ++ (reply_words reply ++ codes "\n"))) }
{
    match reply {
        Reply::Number(number) => {
            push_number(text, " -> ", number)?;
            text.push_str("\n")
        }
        Reply::Unit => text.push_str(" -> ok\n"),
        Reply::Empty => text.push_str(" -> empty\n"),
        Reply::Yes => text.push_str(" -> yes\n"),
        Reply::No => text.push_str(" -> no\n"),
    }
}
