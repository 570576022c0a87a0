//! Where a turn has the value of a leaf of work from.
ghost use Rattle.std.specs.Prelude.{◌≡◌, ℕ, ⊤, IfOk};

use crate::brand::WorkBrand;
use crate::branded::BrandedWork;
use crate::function::LeafWork;
use std::alloc::{AllocError, Global};

/// What gives the value of the leaf of work whose turn it is: the work itself, which runs then, or a value that was
/// found before.
pub trait WorkValue {
    /// The value of a leaf of work, by its number.
    ghost meaning: { Self → ℕ → ℕ };

    /// It has the value for this number.
    ghost has: { Self → ℕ → Type 0 };

    /// The value of the leaf of work with the number `n`. Want of memory is the one answer that has no cause.
    fn value(&self, alloc: Global, n: u32) -> Result<u32, AllocError>
        requires { has self.now n }
        ensures { IfOk result (λ value. value ≡ meaning self.now n) };
}

impl<'a, B: WorkBrand, W: LeafWork> WorkValue for BrandedWork<'a, B, W> {
    ghost meaning = { λ self. B.work };

    ghost has = { λ self n. ⊤ };

    /// Runs the work, whatever the number.
    fn value(&self, alloc: Global, n: u32) -> Result<u32, AllocError>
        ensures { IfOk result (λ value. value ≡ B.work n) }
    {
        self.run(alloc, n)
    }
}
