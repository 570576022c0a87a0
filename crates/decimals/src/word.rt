//! Reading words that are a decimal number as a whole.
ghost use Rattle.std.specs.Prelude.{◌≡◌, ◌↔◌, ◌<◌, ◌^◌, ℕ, IsTrue, IfSome, IfNone};
ghost use Rattle.std.specs.Fmt.{decimal};
ghost use Rattle.decimals.specs.Words.{number_between};
ghost use Rattle.decimals.specs.Code.Fronts.{BeginsPlain};

use std::str;

/// Whether the word has neither a leading `+` nor a leading zero before more bytes: `parse` would accept both.
fn begins_plain(word: &[u8]) -> bool
    ensures { IsTrue result ↔ BeginsPlain word.now }
{
    match word {
        [b'0'] => true,
        [b'0' | b'+', ..] => false,
        _ => true,
    }
}

/// The number below 2^64 whose decimal is `word`, if there is one. Time: linear in the word. Memory: none.
pub fn decimal_in(word: &[u8]) -> Option<u64>
    ensures some { IfSome result (λ number. word.now ≡ decimal number) }
    ensures none { IfNone result ((number : ℕ) → number < 2 ^ 64 → word.now ≡ decimal number → ⊥) }
{
    if !begins_plain(word) {
        return None;
    }
    match str::from_utf8(word) {
        Ok(digits) => digits.parse::<u64>().ok(),
        Err(_) => None,
    }
}

/// The number from `least` to `most`, both included, whose decimal is `word`, if there is one. Time: linear in the
/// word. Memory: none.
pub fn number_between(word: &[u8], least: u64, most: u64) -> Option<u64>
    ensures { result ≡ number_between least most word.now }
{
    let number = decimal_in(word)?;
    if number < least || number > most {
        return None;
    }
    Some(number)
}
