//! The function that leaves of work run.
ghost use Rattle.std.specs.Prelude.{◌≡◌, ℕ, IfOk};

use std::alloc::{AllocError, Global};

/// What a leaf of work runs: a function of its number. The value fits 32 bits, as each value of a leaf does.
///
/// It may read what it borrows, and answers alike each time: its meaning is a function of the number. It may take as
/// long as it likes, since a worker holds nothing that the others need while it runs a leaf.
pub trait LeafWork {
    /// The value of a leaf of work, by its number.
    ghost meaning: { Self → ℕ → ℕ };

    /// The value of the leaf of work with the number `n`. Want of memory is the one answer that has no cause.
    fn run(&self, alloc: Global, n: u32) -> Result<u32, AllocError>
        ensures { IfOk result (λ value. value ≡ meaning self.now n) };
}
