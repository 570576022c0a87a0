//! What is appended to the text of a document: numbers, and words that are escaped.
ghost use Rattle.std.specs.Prelude.{◌≡◌, ◌++◌, OnOk};
ghost use Rattle.report_picture.specs.Markup.{escaped, escaped_byte};

use itoa::{Buffer, Integer};
use std::alloc::AllocError;

/// Appends bytes as they are.
pub(crate) fn push_text(text: &mut Vec<u8>, bytes: &[u8]) -> Result<(), AllocError>
    ensures { OnOk result (text.new.items ≡ text.old.items ++ bytes.now) }
{
    text.extend_from_slice(bytes)
}

/// Appends `words` and then the number in decimal.
#[inline(always)]
pub(crate) fn push_number<I: Integer>(
    text: &mut Vec<u8>,
    words: &[u8],
    number: I,
) -> Result<(), AllocError>
    ensures { OnOk result (text.new.items ≡ text.old.items ++ (words.now ++ I.text number)) }
{
    let mut buffer = Buffer::new();
    text.extend_from_slice(words)?;
    text.extend_from_slice(buffer.format(number).as_bytes())
}

/// Appends a byte of words.
fn push_byte(text: &mut Vec<u8>, byte: u8) -> Result<(), AllocError>
    ensures { OnOk result (text.new.items ≡ text.old.items ++ escaped_byte byte) }
{
    match byte {
        b'&' => text.extend_from_slice(b"&amp;"),
        b'<' => text.extend_from_slice(b"&lt;"),
        b'>' => text.extend_from_slice(b"&gt;"),
        b'"' => text.extend_from_slice(b"&quot;"),
        b'\'' => text.extend_from_slice(b"&apos;"),
        _ => text.extend_from_slice(&[byte]),
    }
}

/// Appends words.
pub(crate) fn push_escaped(text: &mut Vec<u8>, words: &[u8]) -> Result<(), AllocError>
    ensures { OnOk result (text.new.items ≡ text.old.items ++ escaped words.now) }
{
    for byte in words {
        push_byte(text, *byte)?;
    }
    Ok(())
}
