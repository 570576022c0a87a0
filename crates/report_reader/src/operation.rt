//! The operation of a call.
ghost use Rattle.std.specs.Prelude.{◌≡◌, ℕ, List, IfSome, IfNone};
ghost use Rattle.seq_objects.specs.Verbs.{word_text};
ghost use Rattle.seq_objects.specs.declared.verb.Verb.{Verb as VerbOf};
ghost use Rattle.seq_objects.specs.declared.verb.VerbWord.{VerbWord as WordOf};
ghost use Rattle.report_reader.specs.Code.Fields.{IsLettersThen};
ghost use Rattle.report_reader.specs.Code.Operations.{IsVerbThen, IsArgumentThen, IsOpThen};
ghost use Rattle.report_reader.specs.declared.operation.Spoken.{Spoken as SpokenOp};

use crate::object::{read_kind, read_mark};
use crate::words::{letter_run, read_field, read_words};
use seq_objects::{Kind, Verb, VerbWord};

/// An operation without its object: a verb, and its argument, which is 0 where it takes none.
#[derive(Clone, Copy)]
pub(crate) struct Spoken {
    pub verb: Verb,
    pub argument: u32,
}

/// The word for an operation at the front of the text, and the rest behind it.
fn read_word(text: &[u8]) -> Option<(VerbWord, &[u8])>
    ensures some { IfSome result (λ read. IsLettersThen (word_text read.0) text.now read.1.now) }
    ensures none { IfNone result ((word : WordOf) (rest : List ℕ)
        → IsLettersThen (word_text word) text.now rest → ⊥) }
{
    let (letters, rest) = text.split_at(letter_run(text));
    let word = VerbWord::of_text(letters)?;
    Some((word, rest))
}

/// The verb of an object of this kind behind a blank at the front of the text, and the rest behind its word.
fn read_verb(kind: Kind, text: &[u8]) -> Option<(Verb, &[u8])>
    ensures some { IfSome result (λ read. IsVerbThen kind text.now read.0 read.1.now) }
    ensures none { IfNone result ((verb : VerbOf) (rest : List ℕ) → IsVerbThen kind text.now verb rest → ⊥) }
{
    let rest = read_words(text, b" ")?;
    let (word, rest) = read_word(rest)?;
    let verb = Verb::by_word(kind, word)?;
    Some((verb, rest))
}

/// The argument of the verb behind a blank at the front of the text, and the rest behind it. A verb without an argument
/// gets 0, and the whole text is left.
fn read_argument(verb: Verb, text: &[u8]) -> Option<(u64, &[u8])>
    ensures some { IfSome result (λ read. IsArgumentThen verb text.now read.0 read.1.now) }
    ensures none { IfNone result ((number : ℕ) (rest : List ℕ)
        → IsArgumentThen verb text.now number rest → ⊥) }
{
    if verb.takes_argument() {
        read_field(text, b" ", 4_294_967_295)
    } else {
        Some((0, text))
    }
}

/// The operation at the front of the text, with the arrow behind it; the mark of its object; and the rest behind the
/// arrow.
pub(crate) fn read_op(text: &[u8]) -> Option<(Spoken, &[u8], &[u8])>
    ensures some { IfSome result (λ read. IsOpThen text.now read.0 read.1.now read.2.now) }
    ensures none { IfNone result ((spoken : SpokenOp) (mark rest : List ℕ) → IsOpThen text.now spoken mark rest → ⊥) }
{
    let (kind, rest) = read_kind(text)?;
    let (mark, rest) = read_mark(rest)?;
    let (verb, rest) = read_verb(kind, rest)?;
    let (argument, rest) = read_argument(verb, rest)?;
    let rest = read_words(rest, b" -> ")?;
    let spoken = Spoken {
        verb,
        argument: argument as u32,
    };
    Some((spoken, mark, rest))
}
