//! The lines of a text, and the words of a line.
ghost use Rattle.std.specs.Prelude.{◌≡◌, ◌+◌, ◌≤◌, ◌<◌, ◌^◌, [], ◌∷◌, ◌++◌, take, length, IfOk, OnOk, MatchOption};
ghost use Rattle.std.specs.List.{slice_split, position_or_len};
ghost use Rattle.batch_script.specs.Scripts.{is_blank, is_line_feed, words};

use crate::name::Name;
use std::alloc::{AllocError, Global};
use std::marker::Model;

/// Whether a byte stands between words.
fn is_blank(byte: u8) -> bool
    ensures { result ≡ is_blank byte }
{
    matches!(byte, b' ' | b'\t' | b'\r')
}

/// The first word of a line, and what follows it.
fn first_word(line: &[u8]) -> Option<(&[u8], &[u8])>
    ensures words { MatchOption result (words line.now ≡ []) (λ p. words line.now ≡ p.0.now ∷ words p.1.now) }
    ensures shorter { MatchOption result (0 ≤ 0) (λ p. length p.1.now < length line.now) }
{
    let mut left = line;
    while let [first, rest @ ..] = left {
        if !is_blank(*first) {
            return Some(left.split_at(word_len(left)));
        }
        left = rest;
    }
    None
}

/// The number of bytes before the first blank.
fn word_len(text: &[u8]) -> usize
    ensures { result ≡ position_or_len (λ byte. is_blank byte) text.now }
{
    for (len, byte) in text.iter().enumerate() {
        if is_blank(*byte) {
            return len;
        }
    }
    text.len()
}

/// Sets the name at a place to a word, or appends the word.
fn put_name(names: &mut Vec<Name>, alloc: Global, at: usize, word: &[u8]) -> Result<(), AllocError>
    requires { at ≤ length names.old.items }
    ensures names { OnOk result (take (at + 1) names.new.items ≡ take at names.old.items ++ word.now ∷ []) }
    ensures within { OnOk result (at + 1 ≤ length names.new.items) }
{
    if at < names.len() {
        names[at].set(word)?;
    } else {
        names.push(Name::copied(alloc, word)?)?;
    }
    Ok(())
}

/// Sets the first names to the words of a line, and returns how many there are. The memory of the names is used again.
pub(crate) fn fill_names(
    alloc: Global,
    line: &[u8],
    names: &mut Vec<Name>,
) -> Result<usize, AllocError>
    ensures within { IfOk result (λ count. count ≤ length names.new.items) }
    ensures words { IfOk result (λ count. take count names.new.items ≡ words line.now) }
{
    let mut count = 0;
    let mut rest = line;
    while let Some((word, after)) = first_word(rest) {
        put_name(names, alloc, count, word)?;
        count += 1;
        rest = after;
    }
    Ok(count)
}

/// The number of bytes before the first line feed.
fn line_len(text: &[u8]) -> usize
    ensures { result ≡ position_or_len (λ byte. is_line_feed byte) text.now }
{
    for (len, byte) in text.iter().enumerate() {
        if *byte == b'\n' {
            return len;
        }
    }
    text.len()
}

/// The lines of a text that are left. Contracts see the list of them.
#[derive(Drop)]
pub(crate) struct LinesLeft<'a> {
    text: Option<&'a [u8]>,
}

impl<'a> Model for LinesLeft<'a> {
    ghost use Rattle.std.specs.Prelude.{ℕ, List};
    ghost use Rattle.batch_script.specs.Code.Lines.{lines_in};

    ghost Value = { List (List ℕ) };

    ghost view = { λ left. lines_in left.text };
}

impl<'a> LinesLeft<'a> {
    pub(crate) fn new(text: &'a [u8]) -> LinesLeft<'a>
        ensures { result ≡ slice_split (λ byte. is_line_feed byte) text.now }
    {
        LinesLeft { text: Some(text) }
    }

    /// The next line, without its line feed.
    pub(crate) fn next(&mut self) -> Option<&'a [u8]>
        ensures { MatchOption result (self.old ≡ []) (λ line. self.old ≡ line.now ∷ self.new) }
    {
        let text = self.text?;
        let len = line_len(text);
        if len < text.len() {
            self.text = Some(&text[len + 1..]);
            Some(&text[..len])
        } else {
            self.text = None;
            Some(text)
        }
    }
}
