//! The place of a leaf's call in a book.
ghost use Rattle.std.specs.Prelude.{◌≡◌, ◌<◌, ◌^◌, length};
ghost use Rattle.batch_history.specs.Book.{flat};
ghost use Rattle.batch_history.specs.Places.{place_in as first_in, place_of};

use batch_history::{Batch, Entry, Place};

/// The place of a leaf's first entry in one batch, whose number is `batch`.
fn place_in(batch: u32, entries: &[Entry], leaf: u32) -> Option<Place>
    requires few { length entries.now < 2 ^ 32 }
    ensures { result ≡ first_in batch 0 entries.now leaf }
{
    for (place, entry) in entries.iter().enumerate() {
        if entry.leaf == leaf {
            return Some(Place {
                batch,
                place: place as u32,
                entry: *entry,
            });
        }
    }
    None
}

/// The place of a leaf's first entry in a book, which need not be lawful.
pub(crate) fn place_of(book: &[Batch], leaf: u32) -> Option<Place>
    requires few_batches { length book.now < 2 ^ 32 }
    requires few_entries { length (flat book.now) < 2 ^ 32 }
    ensures { result ≡ place_of book.now leaf }
{
    for (number, batch) in book.iter().enumerate() {
        let found = place_in(number as u32, batch.entries(), leaf);
        if found.is_some() {
            return found;
        }
    }
    None
}
