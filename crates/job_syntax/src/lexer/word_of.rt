//! Which word a token spells: a quoted word of the grammar, a number, one that depends on the copy, or a name.
ghost use Rattle.std.specs.Prelude.{◌≡◌, ◌+◌, ◌<◌, [], IfSome, IfNone, IsTrue, not, length, take, drop};
ghost use Rattle.job_syntax.specs.Words.{are_digits, begins_well, number_of, before_first, behind_first, copies_word, kind_word, object_word, argument_word, own_word, table_word, word_of};

use crate::lexer::word::Word;
use job_names::{Name, is_spelled, name_of};
use seq_objects::{Kind, VerbWord};

/// Whether a text is digits alone, at least one.
fn are_digits(text: &[u8]) -> bool
    ensures { result ≡ are_digits text.now }
{
    !text.is_empty() && text.iter().all(|byte| byte.is_ascii_digit())
}

/// Whether a run of digits has a leading zero: `0` alone does not.
fn has_leading_zero(digits: &[u8]) -> bool
    requires { IsTrue (are_digits digits.now) }
    ensures { result ≡ not (begins_well digits.now) }
{
    matches!(digits, [b'0', _, ..])
}

/// The value of a run of digits, if it has no leading zero and fits 32 bits.
fn number_of(digits: &[u8]) -> Option<u32>
    requires { IsTrue (are_digits digits.now) }
    ensures { result ≡ number_of digits.now }
{
    if has_leading_zero(digits) {
        return None;
    }
    let mut number: u32 = 0;
    for digit in digits {
        number = number
            .checked_mul(10)?
            .checked_add(u32::from(*digit - b'0'))?;
    }
    Some(number)
}

/// The index of the first byte that is `mark`.
fn first_index(mark: u8, text: &[u8]) -> Option<usize>
    ensures none { IfNone result (behind_first mark text.now ≡ []) }
    ensures within { IfSome result (λ index. index < length text.now) }
    ensures before { IfSome result (λ index. before_first mark text.now ≡ take index text.now) }
    ensures behind { IfSome result (λ index. behind_first mark text.now ≡ drop (index + 1) text.now) }
{
    for (index, byte) in text.iter().enumerate() {
        if *byte == mark {
            return Some(index);
        }
    }
    None
}

/// The word of a token that begins with `@*`, where `text` is the rest of it.
fn copies_word(text: &[u8]) -> Word
    ensures { result ≡ copies_word text.now }
{
    let Some(plus) = first_index(b'+', text) else {
        return Word::Other;
    };
    let factor = &text[..plus];
    let addend = &text[plus + 1..];
    if are_digits(factor) && are_digits(addend) {
        Word::Copies(number_of(factor).zip(number_of(addend)))
    } else {
        Word::Other
    }
}

/// The word of a kind of objects, with the name of one of them.
fn kind_word(text: &[u8], name: Name) -> Word
    ensures { result ≡ kind_word text.now name }
{
    match Kind::of_text(text) {
        Some(kind) => Word::Object(kind, Some(name)),
        None => Word::Other,
    }
}

/// The word of a token with a colon.
fn object_word(text: &[u8]) -> Word
    ensures { result ≡ object_word text.now }
{
    let Some(colon) = first_index(b':', text) else {
        return Word::Other;
    };
    let name = &text[colon + 1..];
    if is_spelled(name) {
        kind_word(&text[..colon], name_of(name))
    } else {
        Word::Other
    }
}

/// The word of a token that is not a quoted word.
fn argument_word(text: &[u8]) -> Word
    ensures { result ≡ argument_word text.now }
{
    if are_digits(text) {
        return Word::Number(number_of(text));
    }
    match text {
        [b'@'] => Word::Copies(Some((1, 0))),
        [b'@', b'*', rest @ ..] => copies_word(rest),
        _ if is_spelled(text) => Word::Named(name_of(text)),
        _ => object_word(text),
    }
}

/// The word of the language that a text is, but for the words of kinds and verbs.
fn own_word(text: &[u8]) -> Option<Word>
    ensures { result ≡ own_word text.now }
{
    let word = match text {
        b"{" => Word::Open,
        b"}" => Word::Close,
        b"work" => Word::Work,
        b"seq" => Word::Seq,
        b"par" => Word::Par,
        b"for" => Word::For,
        b"pfor" => Word::Pfor,
        b"let" => Word::Let,
        b"=" => Word::Equals,
        _ => return None,
    };
    Some(word)
}

/// The word of a kind or of a verb that a text is.
fn table_word(text: &[u8]) -> Option<Word>
    ensures { result ≡ table_word text.now }
{
    if let Some(kind) = Kind::of_text(text) {
        return Some(Word::Object(kind, None));
    }
    VerbWord::of_text(text).map(Word::Verb)
}

/// The word that a token spells.
pub(crate) fn word_of(text: &[u8]) -> Word
    ensures { result ≡ word_of text.now }
{
    if let Some(word) = own_word(text) {
        return word;
    }
    match table_word(text) {
        Some(word) => word,
        None => argument_word(text),
    }
}
