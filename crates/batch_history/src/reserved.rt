//! Histories with room reserved in advance.
ghost use Rattle.std.specs.Prelude.{◌≡◌, ◌<◌, ◌≤◌, [], ◌∷◌, ◌++◌, length, IfOk};

use crate::batch::Batch;
use crate::history::History;
use std::alloc::{AllocError, Global};
use std::marker::Model;

/// A history with reserved room, so that appending allocates nothing and cannot fail. Contracts see its batches and its
/// total capacity; the type invariant is `IsHistory`, as for a `History`.
#[derive(Drop)]
pub struct ReservedHistory {
    batches: Vec<Batch>,
}

impl Model for ReservedHistory {
    ghost use Rattle.std.specs.Prelude.{vec_capacity};
    ghost use Rattle.batch_history.specs.Book.{IsHistory};
    ghost use Rattle.batch_history.specs.Reserved.{ReservedView};

    ghost Value = { ReservedView };

    ghost view = { λ h. record { batches = h.batches.items; capacity = vec_capacity h.batches } };

    ghost invariant = { λ h. IsHistory h.batches.items };
}

impl ReservedHistory {
    ghost use Rattle.batch_history.specs.Book.{IsHistory};

    /// The empty history with room for `capacity` batches.
    pub fn with_capacity(alloc: Global, capacity: usize) -> Result<ReservedHistory, AllocError>
        ensures { IfOk result (λ h. h ≡ record { batches = []; capacity = capacity }) }
    {
        Ok(ReservedHistory {
            batches: Vec::with_capacity(alloc, capacity)?,
        })
    }

    /// The batches, from batch 0. There are at most `capacity` of them.
    pub fn batches(&self) -> &[Batch]
        ensures batches { result.now ≡ self.now.batches }
        ensures room { length self.now.batches ≤ self.now.capacity }
        ensures history { IsHistory self.now.batches }
    {
        self.batches.as_slice()
    }

    /// Appends a batch.
    ///
    /// Memory: none.
    pub fn append(&mut self, batch: Batch)
        requires room { length self.old.batches < self.old.capacity }
        requires history { IsHistory (self.old.batches ++ batch ∷ []) }
        ensures { self.new
            ≡ record { batches = self.old.batches ++ batch ∷ []; capacity = self.old.capacity } }
    {
        self.batches.push_reserved(batch);
    }

    /// The same batches as a `History`, without reserved room.
    ///
    /// Memory: none.
    pub fn into_history(self) -> History
        ensures { result ≡ self.batches }
    {
        History {
            batches: self.batches,
        }
    }
}
