//! The parser of calls: which words spell a call.
ghost use Rattle.std.specs.Prelude.{◌≡◌, ◌≤◌, Some, length};
ghost use Rattle.decimals.specs.Words.{number_between};
ghost use Rattle.bulkrun.specs.Calls.{kind_named, keys_named, call_with, bulk_call};
ghost use Rattle.limits.specs.declared.TheConstants.{MOST_BULK_KEYS};

use batch_script::Name;
use bulk_calls::{BulkKind, BulkOp};
use decimals::number_between;
use limits::MOST_BULK_KEYS;

/// The key that a word spells, if it is a number below 2^32.
fn key_in(word: &Name) -> Option<u32>
    ensures { result ≡ number_between 0 4294967295 word.now }
{
    number_between(word.bytes(), 0, 4_294_967_295).map(|key| key as u32)
}

/// The kind of call that a word names, if it names one.
fn kind_named(word: &Name) -> Option<BulkKind>
    ensures { result ≡ kind_named word.now }
{
    let bytes = word.bytes();
    if bytes == b"insert".as_slice() {
        Some(BulkKind::Insert)
    } else if bytes == b"remove".as_slice() {
        Some(BulkKind::Remove)
    } else if bytes == b"find".as_slice() {
        Some(BulkKind::Find)
    } else {
        None
    }
}

/// The call of this kind with the keys that the words spell, if each spells one.
fn call_with(kind: BulkKind, words: &[Name]) -> Option<BulkOp>
    requires { length words.now ≤ MOST_BULK_KEYS }
    ensures { result ≡ call_with (Some kind) (keys_named words.now) }
{
    let mut call = BulkOp::new(kind);
    for word in words {
        call.push(key_in(word)?);
    }
    Some(call)
}

/// The call that the words spell, if any: `insert`, `remove` or `find`, with 1 to `MOST_BULK_KEYS` keys.
pub(crate) fn bulk_call(words: &[Name]) -> Option<BulkOp>
    ensures { result ≡ bulk_call words.now }
{
    match words {
        [word, keys @ ..] if !keys.is_empty() && keys.len() <= MOST_BULK_KEYS => {
            call_with(kind_named(word)?, keys)
        }
        _ => None,
    }
}
