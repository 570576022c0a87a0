//! Reading a decimal number at the front of a text.
ghost use Rattle.std.specs.Prelude.{◌≡◌, ℕ, List, IfSome, IfNone};
ghost use Rattle.std.specs.Char.{is_ascii_digit};
ghost use Rattle.std.specs.List.{prefix_len};
ghost use Rattle.decimals.specs.Texts.{IsDecimalThen};

use crate::word::decimal_in;

/// The length of the run of ASCII digits at the front of the text.
fn digit_run(text: &[u8]) -> usize
    ensures { result ≡ prefix_len is_ascii_digit text.now }
{
    text.iter().take_while(|byte| byte.is_ascii_digit()).count()
}

/// Reads the number at the front of the text, if its whole run of digits is the decimal of a number up to `most`.
/// Returns the number and the rest of the text. Time: linear in the run of digits. Memory: none.
pub fn read_decimal(text: &[u8], most: u64) -> Option<(u64, &[u8])>
    ensures some { IfSome result (λ read. IsDecimalThen most text.now read.0 read.1.now) }
    ensures none { IfNone result ((number : ℕ) (rest : List ℕ) → IsDecimalThen most text.now number rest → ⊥) }
{
    let (digits, rest) = text.split_at(digit_run(text));
    let number = decimal_in(digits)?;
    if number > most {
        return None;
    }
    Some((number, rest))
}
