//! A script that was read: its batches, none of them empty.
ghost use Rattle.std.specs.Prelude.{◌≡◌, ◌<◌, length, slice_get, Some};
ghost use Rattle.batch_script.specs.Scripts.{IsBatch};

use std::marker::Model;

/// The batches of a script. Contracts see it as the list of its batches, each a list of calls.
#[derive(Drop)]
pub struct Script<C: Drop> {
    pub(crate) batches: Vec<Vec<C>>,
}

impl<C: Drop> Model for Script<C> {
    ghost use Rattle.std.specs.Prelude.{◌<◌, ◌^◌, List, length, map};
    ghost use Rattle.std.specs.List.{AllByRecursion};
    ghost use Rattle.batch_script.specs.Scripts.{IsBatch};

    ghost Value = { List (List C) };

    ghost view = { λ script. map (λ batch. batch.items) script.batches.items };

    ghost invariant = { λ script. (length script.batches.items < 2 ^ 32)
        × AllByRecursion (λ batch. IsBatch batch.items) script.batches.items };
}

impl<C: Drop> Script<C> {
    /// How many batches there are.
    pub fn count(&self) -> u32
        ensures { result ≡ length self.now }
    {
        self.batches.len() as u32
    }

    /// The calls of a batch.
    pub fn batch(&self, b: u32) -> &[C]
        requires { b < length self.now }
        ensures batch { slice_get self.now b ≡ Some result.now }
        ensures few { IsBatch result.now }
    {
        self.batches[b as usize].as_slice()
    }
}
