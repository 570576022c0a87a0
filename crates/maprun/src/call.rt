//! The parser of calls: which words spell a call.
ghost use Rattle.std.specs.Prelude.{◌≡◌};
ghost use Rattle.maprun.specs.Calls.{map_call, number_in, put_of};

use batch_script::Name;
use batched_map::MapOp;
use decimals::number_between;

/// The number that a word spells, if it is below 2^32.
fn number_in(word: &Name) -> Option<u32>
    ensures { result ≡ number_in word.now }
{
    number_between(word.bytes(), 0, 4_294_967_295).map(|number| number as u32)
}

/// The put of a value for a key, if both words are numbers.
fn put_of(key: &Name, val: &Name) -> Option<MapOp>
    ensures { result ≡ put_of (number_in key.now) (number_in val.now) }
{
    match (number_in(key), number_in(val)) {
        (Some(key), Some(val)) => Some(MapOp::Put(key, val)),
        _ => None,
    }
}

/// The call that the words spell, if any.
pub(crate) fn map_call(words: &[Name]) -> Option<MapOp>
    ensures { result ≡ map_call words.now }
{
    match words {
        [word, key] if word.bytes() == b"del".as_slice() => number_in(key).map(MapOp::Del),
        [word, key] if word.bytes() == b"get".as_slice() => number_in(key).map(MapOp::Get),
        [word, key] if word.bytes() == b"rank".as_slice() => number_in(key).map(MapOp::Rank),
        [word, index] if word.bytes() == b"nth".as_slice() => number_in(index).map(MapOp::Nth),
        [word, key, val] if word.bytes() == b"put".as_slice() => put_of(key, val),
        _ => None,
    }
}
