//! The structures of one kind.
ghost use Rattle.std.specs.Prelude.{◌≡◌, ℕ, [], None};
ghost use Rattle.object_rows.specs.Contents.{structure_at};

use crate::by_number::ByNumber;
use std::alloc::Global;

/// What is kept of a structure while the pieces of its calls run: its number, how many pieces it has, and its rest.
#[derive(Drop)]
pub struct Called<R> {
    pub number: u32,
    pub count: usize,
    pub rest: R,
}

/// The structures of one kind that are closed, and those that a batch has opened, in the order of their numbers.
#[derive(Drop)]
pub struct Row<T, R> {
    pub closed: ByNumber<T>,
    pub called: Vec<Called<R>>,
}

impl<T: Drop, R: Drop> Row<T, R> {
    /// No structure.
    ///
    /// Memory: none.
    pub fn new(alloc: Global) -> Row<T, R>
        ensures closed { (number : ℕ) → structure_at result.closed number ≡ None }
        ensures called { result.called.items ≡ [] }
    {
        Row {
            closed: ByNumber::new(alloc),
            called: Vec::new(alloc),
        }
    }
}
