//! The structures of the four kinds, stored in one box.

use crate::row::RowOf;
use crate::spare::Spare;
use batched_counter::Counter;
use batched_pq::Queue;
use batched_stack::Stack;
use batched_tree::TreeSet;

/// A row of structures for each kind, and the vectors that batches share. They stay in one box across batches, so a shop
/// moves as a pointer, and a batch moves only the structures that it calls.
pub struct Structures {
    pub counter: RowOf<Counter>,
    pub stack: RowOf<Stack>,
    pub tree: RowOf<TreeSet>,
    pub queue: RowOf<Queue>,
    pub spare: Spare,
}

// A crate that drops a value proves the drop of each type inside, down to a type with an `impl`. This one ends there, so
// that the crates above prove nothing of the four structures.
impl Drop for Structures {
    fn drop(self) {
        let Structures {
            counter: _,
            stack: _,
            tree: _,
            queue: _,
            spare: _,
        } = self;
    }
}
