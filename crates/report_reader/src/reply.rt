//! The reply of a call.
ghost use Rattle.std.specs.Prelude.{◌≡◌, ◌++◌, ℕ, List, IfSome, IfNone, codes};
ghost use Rattle.seq_objects.specs.declared.reply.Reply.{Reply};
ghost use Rattle.report_reader.specs.Code.Replies.{IsWord, IsWordThen, IsReplyThen};

use crate::words::read_words;
use decimals::read_decimal;
use seq_objects::Reply;

/// The reply at the front of the text, if it is a word, and the rest behind it.
fn read_word(text: &[u8]) -> Option<(Reply, &[u8])>
    ensures some { IfSome result (λ read. IsWordThen text.now read.0 read.1.now) }
    ensures none { IfNone result ((reply : Reply) (rest : List ℕ) → IsWordThen text.now reply rest → ⊥) }
{
    if let Some(rest) = read_words(text, b"ok") {
        return Some((Reply::Unit, rest));
    }
    if let Some(rest) = read_words(text, b"empty") {
        return Some((Reply::Empty, rest));
    }
    if let Some(rest) = read_words(text, b"yes") {
        return Some((Reply::Yes, rest));
    }
    if let Some(rest) = read_words(text, b"no") {
        return Some((Reply::No, rest));
    }
    None
}

/// The reply at the front of the text, with the line feed behind it, and the rest behind the line.
pub(crate) fn read_reply(text: &[u8]) -> Option<(Reply, &[u8])>
    ensures some { IfSome result (λ read. IsReplyThen text.now read.0 read.1.now) }
    ensures none { IfNone result ((reply : Reply) (rest : List ℕ) → IsReplyThen text.now reply rest → ⊥) }
{
    if let Some((number, rest)) = read_decimal(text, u64::MAX) {
        let rest = read_words(rest, b"\n")?;
        return Some((Reply::Number(number), rest));
    }
    let (reply, rest) = read_word(text)?;
    let rest = read_words(rest, b"\n")?;
    Some((reply, rest))
}
