//! The parser of calls: which words spell a call.
ghost use Rattle.std.specs.Prelude.{◌≡◌};
ghost use Rattle.decimals.specs.Words.{number_between};
ghost use Rattle.queuerun.specs.Calls.{queue_call};

use batch_script::Name;
use decimals::number_between;

/// The item that a word spells, if it is a number below 2^32.
fn item_in(word: &Name) -> Option<u32>
    ensures { result ≡ number_between 0 4294967295 word.now }
{
    number_between(word.bytes(), 0, 4_294_967_295).map(|item| item as u32)
}

/// The call that the words spell, if any: a put of an item, or a get, which has none.
pub(crate) fn queue_call(words: &[Name]) -> Option<Option<u32>>
    ensures { result ≡ queue_call words.now }
{
    match words {
        [word] if word.bytes() == b"get".as_slice() => Some(None),
        [word, number] if word.bytes() == b"put".as_slice() => item_in(number).map(Some),
        _ => None,
    }
}
