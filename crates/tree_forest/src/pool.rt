//! A pool of memory for forests, for reuse.
ghost use Rattle.std.specs.Prelude.{◌≡◌, [], IfOk};

use std::alloc::{AllocError, Global};
use tree_nodes::Pool;
use tree23::trees::KeyedTree;

/// `give_entries` keeps at most this many vectors.
const MOST: usize = 256;

/// The initial capacity of a new vector of entries.
const FIRST_ROOM: usize = 12;

/// Unused node boxes, leaves and vectors of entries, which are taken before new ones are allocated. No contract on a
/// forest depends on their contents.
#[derive(Drop)]
pub struct ForestPool {
    pub(crate) trees: Pool,
    entries: Vec<Vec<KeyedTree>>,
    alloc: Global,
}

impl ForestPool {
    /// An empty pool.
    ///
    /// Memory: none.
    #[inline]
    pub fn new(alloc: Global) -> ForestPool {
        ForestPool {
            trees: Pool::new(alloc),
            entries: Vec::new(alloc),
            alloc,
        }
    }

    /// Keeps a vector of entries for reuse. The vector is freed if the pool has `MOST` of them or cannot grow.
    #[inline]
    pub(crate) fn give_entries(&mut self, entries: Vec<KeyedTree>) {
        if self.entries.len() < MOST {
            if let Err(_) = self.entries.push(entries) {}
        }
    }

    /// An empty vector for entries: from the pool if it has one, or newly allocated.
    #[inline]
    pub(crate) fn take_entries(&mut self) -> Result<Vec<KeyedTree>, AllocError>
        ensures { IfOk result (λ entries. entries.items ≡ []) }
    {
        match self.entries.pop() {
            Some(mut entries) => {
                entries.clear();
                Ok(entries)
            }
            None => {
                let entries = Vec::with_capacity(self.alloc, FIRST_ROOM)?;
                Ok(entries)
            }
        }
    }
}
