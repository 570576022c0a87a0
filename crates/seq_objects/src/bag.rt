//! A min-priority queue of numbers.
ghost use Rattle.std.specs.Prelude.{◌≡◌, [], OnOk, OnErr};
ghost use Rattle.seq_objects.specs.Objects.{with_item, least, without_least};

use std::alloc::{AllocError, Global};
use std::cmp::Reverse;
use std::collections::BinaryHeap;
use std::marker::Model;

/// Numbers in a binary heap, with repeats. Contracts see them as an ascending list.
#[derive(Drop)]
pub(crate) struct Bag {
    heap: BinaryHeap<Reverse<u32>>,
}

impl Model for Bag {
    ghost use Rattle.std.specs.Prelude.{ℕ, List};
    ghost use Rattle.std.specs.BinaryHeap.{heap_items, IsHeap};
    ghost use Rattle.std.specs.Ordering.{nat_cmp};
    ghost use Rattle.seq_objects.specs.Code.Heaps.{ascending};

    ghost Value = { List ℕ };

    ghost view = { λ b. ascending (heap_items b.heap) };

    ghost invariant = { λ b. IsHeap (λ x y. nat_cmp y.0 x.0) (heap_items b.heap) };
}

impl Bag {
    pub(crate) fn new(alloc: Global) -> Bag
        ensures { result ≡ [] }
    {
        Bag {
            heap: BinaryHeap::new(alloc),
        }
    }

    pub(crate) fn insert(&mut self, item: u32) -> Result<(), AllocError>
        ensures ok { OnOk result (self.new ≡ with_item item self.old) }
        ensures err { OnErr result (self.new ≡ self.old) }
    {
        self.heap.push(Reverse(item))?;
        Ok(())
    }

    pub(crate) fn take_least(&mut self) -> Option<u32>
        ensures least { result ≡ least self.old }
        ensures rest { self.new ≡ without_least self.old }
    {
        let Reverse(item) = self.heap.pop()?;
        Some(item)
    }
}
