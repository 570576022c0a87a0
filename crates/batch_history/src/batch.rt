//! Batches: calls that were served together, with their replies.
ghost use Rattle.std.specs.Prelude.{◌≡◌, [], ◌∷◌, IfOk};

use seq_objects::{Op, Reply};
use std::alloc::{AllocError, Global};
use std::marker::Model;
use std::slice;

/// A served call: the leaf that made it, the worker that ran the leaf, the operation and its reply.
#[derive(Clone, Copy)]
pub struct Entry {
    pub leaf: u32,
    pub worker: u32,
    pub op: Op,
    pub reply: Reply,
}

/// Where a batch keeps its entries: one in place, any other number in a vector.
#[derive(Drop)]
pub(crate) enum Storage {
    One(Entry),
    Many(Vec<Entry>),
}

/// The entries of a batch, in the order in which they were served. Contracts see a list. A batch of one entry keeps it
/// in place.
#[derive(Drop)]
pub struct Batch {
    storage: Storage,
}

impl Model for Batch {
    ghost use Rattle.std.specs.Prelude.{List};
    ghost use Rattle.batch_history.specs.declared.batch.Entry.{Entry};

    ghost Value = { List Entry };

    ghost use Rattle.batch_history.specs.Code.Storages.{entries_in};

    ghost view = { λ b. entries_in b.storage };
}

impl Batch {
    /// A batch of these entries, in this order.
    ///
    /// Memory: none.
    pub fn of(entries: Vec<Entry>) -> Batch
        ensures { result ≡ entries.items }
    {
        if let [entry] = entries.as_slice() {
            return Batch::of_one(*entry);
        }
        Batch {
            storage: Storage::Many(entries),
        }
    }

    /// A batch of one entry.
    ///
    /// Memory: none.
    pub fn of_one(entry: Entry) -> Batch
        ensures { result ≡ entry ∷ [] }
    {
        Batch {
            storage: Storage::One(entry),
        }
    }

    /// A copy of the batch. That of one entry allocates nothing.
    pub fn copied(&self, alloc: Global) -> Result<Batch, AllocError>
        ensures { IfOk result (λ copy. copy ≡ self.now) }
    {
        match &self.storage {
            Storage::One(entry) => Ok(Batch::of_one(*entry)),
            Storage::Many(entries) => Ok(Batch::of(Vec::from_slice(alloc, entries.as_slice())?)),
        }
    }

    /// The entries in serial order, from place 0.
    pub fn entries(&self) -> &[Entry]
        ensures { result.now ≡ self.now }
    {
        match &self.storage {
            Storage::One(entry) => slice::from_ref(entry),
            Storage::Many(entries) => entries.as_slice(),
        }
    }
}
