//! The place of a leaf in the text of its job.
ghost use Rattle.std.specs.Prelude.{◌≡◌, IfOk};
ghost use Rattle.leaf_places.specs.Code.Walk.{outside, in_copy};

use std::alloc::{AllocError, Global};
use std::marker::Model;

/// Where a leaf stands: the line of its item, and the copy in which it is of each loop around it, the outermost first.
/// Contracts see a `Place`.
#[derive(Drop)]
pub struct LeafPlace {
    line: u32,
    copies: Vec<u32>,
}

impl Model for LeafPlace {
    ghost use Rattle.leaf_places.specs.Places.{Place};

    ghost Value = { Place };

    ghost view = { λ place. record { line = place.line; copies = place.copies.items } };
}

impl LeafPlace {
    /// The place of a leaf outside every loop.
    pub(crate) fn on_line(alloc: Global, line: u32) -> LeafPlace
        ensures { result ≡ outside line }
    {
        LeafPlace {
            line,
            copies: Vec::new(alloc),
        }
    }

    /// The line of the leaf's item.
    pub fn line(&self) -> u32
        ensures { result ≡ self.now.line }
    {
        self.line
    }

    /// The copies of the loops around the leaf, the outermost first.
    pub fn copies(&self) -> &[u32]
        ensures { result.now ≡ self.now.copies }
    {
        self.copies.as_slice()
    }

    /// The place of the same leaf in this copy of one more loop around it.
    pub(crate) fn in_copy(&self, alloc: Global, copy: u32) -> Result<LeafPlace, AllocError>
        ensures { IfOk result (λ place. place ≡ in_copy copy self.now) }
    {
        let mut copies = Vec::new(alloc);
        copies.push(copy)?;
        copies.extend_from_slice(self.copies.as_slice())?;
        Ok(LeafPlace {
            line: self.line,
            copies,
        })
    }
}
