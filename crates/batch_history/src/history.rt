//! The history of a run: its batches in the order in which they were served.
ghost use Rattle.std.specs.Prelude.{◌≡◌, [], ◌∷◌, ◌++◌, OnOk, OnErr};

use crate::batch::Batch;
use std::alloc::{AllocError, Global};
use std::marker::Model;

/// Batches, numbered from 0 in the order of service. Contracts see a list of batches; the type invariant is
/// `IsHistory`.
#[derive(Drop)]
pub struct History {
    pub(crate) batches: Vec<Batch>,
}

impl Model for History {
    ghost use Rattle.std.specs.Prelude.{List};
    ghost use Rattle.batch_history.specs.declared.batch.Entry.{Entry};
    ghost use Rattle.batch_history.specs.Book.{IsHistory};

    ghost Value = { List (List Entry) };

    ghost view = { λ h. h.batches.items };

    ghost invariant = { λ h. IsHistory h.batches.items };
}

impl History {
    ghost use Rattle.batch_history.specs.Book.{IsHistory};

    /// The empty history.
    ///
    /// Memory: none.
    pub fn new(alloc: Global) -> History
        ensures { result ≡ [] }
    {
        History {
            batches: Vec::new(alloc),
        }
    }

    /// The batches, from batch 0.
    pub fn batches(&self) -> &[Batch]
        ensures batches { result.now ≡ self.now }
        ensures history { IsHistory self.now }
    {
        self.batches.as_slice()
    }

    /// Appends a batch. On an `AllocError` the history is unchanged.
    pub fn append(&mut self, batch: Batch) -> Result<(), AllocError>
        requires { IsHistory (self.old ++ batch ∷ []) }
        ensures ok { OnOk result (self.new ≡ self.old ++ batch ∷ []) }
        ensures err { OnErr result (self.new ≡ self.old) }
    {
        self.batches.push(batch)?;
        Ok(())
    }
}
