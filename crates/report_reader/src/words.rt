//! The front of a text: letters, given words, and a number behind these.
ghost use Rattle.std.specs.Prelude.{◌≡◌, ◌++◌, ℕ, List, IfSome, IfNone};
ghost use Rattle.std.specs.Char.{is_ascii_lowercase};
ghost use Rattle.std.specs.List.{prefix_len};
ghost use Rattle.report_reader.specs.Code.Fields.{IsFieldThen};

use decimals::read_decimal;

/// The length of the run of letters at the front of the text.
pub(crate) fn letter_run(text: &[u8]) -> usize
    ensures { result ≡ prefix_len is_ascii_lowercase text.now }
{
    text.iter()
        .take_while(|byte| byte.is_ascii_lowercase())
        .count()
}

/// The rest of the text behind these words, if it begins with them.
pub(crate) fn read_words<'a>(text: &'a [u8], words: &[u8]) -> Option<&'a [u8]>
    ensures some { IfSome result (λ rest. words.now ++ rest.now ≡ text.now) }
    ensures none { IfNone result ((rest : List ℕ) → words.now ++ rest ≡ text.now → ⊥) }
{
    text.strip_prefix(words)
}

/// The number of at most `most` that stands behind these words at the front of the text, and the rest behind it.
pub(crate) fn read_field<'a>(text: &'a [u8], words: &[u8], most: u64) -> Option<(u64, &'a [u8])>
    ensures some { IfSome result (λ read. IsFieldThen words.now most text.now read.0 read.1.now) }
    ensures none { IfNone result ((number : ℕ) (rest : List ℕ)
        → IsFieldThen words.now most text.now number rest → ⊥) }
{
    let rest = read_words(text, words)?;
    read_decimal(rest, most)
}
