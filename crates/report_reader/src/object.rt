//! Objects as lines tell them: a kind word, and a mark behind it that is empty or a colon and a name.
ghost use Rattle.std.specs.Prelude.{◌≡◌, ℕ, List, IfSome, IfNone};
ghost use Rattle.std.specs.List.{prefix_len};
ghost use Rattle.seq_objects.specs.Verbs.{kind_text};
ghost use Rattle.seq_objects.specs.declared.kind.Kind.{Kind as KindOf};
ghost use Rattle.report_reader.specs.Code.Fields.{IsLettersThen};
ghost use Rattle.report_reader.specs.Code.Objects.{is_mark, is_no_blank, IsMarkThen};

use crate::words::letter_run;
use job_names::is_spelled;
use seq_objects::Kind;

/// The kind whose word the text begins with, and the rest behind it.
pub(crate) fn read_kind(text: &[u8]) -> Option<(Kind, &[u8])>
    ensures some { IfSome result (λ read. IsLettersThen (kind_text read.0) text.now read.1.now) }
    ensures none { IfNone result ((kind : KindOf) (rest : List ℕ)
        → IsLettersThen (kind_text kind) text.now rest → ⊥) }
{
    let (letters, rest) = text.split_at(letter_run(text));
    let kind = Kind::of_text(letters)?;
    Some((kind, rest))
}

/// Whether this is empty or a colon and a name.
fn is_mark(mark: &[u8]) -> bool
    ensures { result ≡ is_mark mark.now }
{
    match mark {
        [] => true,
        [first, name @ ..] => *first == b':' && is_spelled(name),
    }
}

/// The length of the front of the text up to a blank.
fn until_blank(text: &[u8]) -> usize
    ensures { result ≡ prefix_len is_no_blank text.now }
{
    text.iter().take_while(|byte| **byte != b' ').count()
}

/// The mark at the front of the text, and the rest behind it.
pub(crate) fn read_mark(text: &[u8]) -> Option<(&[u8], &[u8])>
    ensures some { IfSome result (λ read. IsMarkThen text.now read.0.now read.1.now) }
    ensures none { IfNone result ((mark rest : List ℕ) → IsMarkThen text.now mark rest → ⊥) }
{
    let (mark, rest) = text.split_at(until_blank(text));
    if !is_mark(mark) {
        return None;
    }
    Some((mark, rest))
}
