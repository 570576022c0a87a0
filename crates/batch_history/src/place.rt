//! The place of a leaf's entry in a book.
ghost use Rattle.std.specs.Prelude.{◌≡◌, ◌<◌, ◌^◌, length, map};
ghost use Rattle.batch_history.specs.Book.{flat};
ghost use Rattle.batch_history.specs.Places.{place_in as first_in, place_of as place_in_book};
ghost use Rattle.seq_objects.specs.Pairs.{AreDistinct};

use crate::batch::{Batch, Entry};

/// An entry with the number of its batch and its place in that batch. Both count from 0.
#[derive(Clone, Copy)]
pub struct Place {
    pub batch: u32,
    pub place: u32,
    pub entry: Entry,
}

/// The place of a leaf's first entry in one batch, found by a linear scan. `batch` is the batch's number.
pub fn place_in(batch: u32, entries: &[Entry], leaf: u32) -> Option<Place>
    requires few { length entries.now < 2 ^ 32 }
    ensures { result ≡ first_in batch 0 entries.now leaf }
{
    for (place, entry) in entries.iter().enumerate() {
        if entry.leaf == leaf {
            return Some(Place {
                batch,
                place: place as u32,
                entry: *entry,
            });
        }
    }
    None
}

/// The place of a leaf's entry in the book, if it has one. The search starts at the last batch, where the entry usually
/// is.
pub fn place_of(batches: &[Batch], leaf: u32) -> Option<Place>
    requires few_batches { length batches.now < 2 ^ 32 }
    requires few_entries { length (flat batches.now) < 2 ^ 32 }
    requires distinct { AreDistinct (map (λ entry. entry.leaf) (flat batches.now)) }
    ensures { result ≡ place_in_book batches.now leaf }
{
    let mut number = batches.len();
    while number > 0 {
        number -= 1;
        let found = place_in(number as u32, batches[number].entries(), leaf);
        if found.is_some() {
            return found;
        }
    }
    None
}
