//! The front of each call's line, which all programs over scripts share.
ghost use Rattle.std.specs.Prelude.{◌≡◌, ◌++◌, OnOk, string_bytes};
ghost use Rattle.std.specs.Fmt.{decimal};
ghost use Rattle.batch_script.specs.Texts.{line_front};

use itoa::Buffer;
use std::alloc::AllocError;

/// Appends words and a number to a text.
fn push_number(text: &mut String, words: &str, number: u32) -> Result<(), AllocError>
    ensures { OnOk result (string_bytes text.new ≡ string_bytes text.old ++ (words.now ++ decimal number)) }
{
    let mut buffer = Buffer::new();
    text.push_str(words)?;
    text.push_str(buffer.format(number))
}

/// Appends the front of a call's line to a text: its batch, its place there, and its worker.
pub fn push_line_front(
    text: &mut String,
    batch: u32,
    place: u32,
    worker: u32,
) -> Result<(), AllocError>
    ensures { OnOk result (string_bytes text.new
        ≡ string_bytes text.old ++ line_front batch place worker) }
{
    push_number(text, "batch ", batch)?;
    push_number(text, " place ", place)?;
    push_number(text, " worker ", worker)?;
    text.push_str(" ")
}
