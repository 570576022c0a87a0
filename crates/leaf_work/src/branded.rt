//! Work of leaves whose meaning a type names.
ghost use Rattle.std.specs.Prelude.{◌≡◌, IfOk};

use crate::brand::WorkBrand;
use crate::function::LeafWork;
use std::alloc::{AllocError, Global};
use std::marker::PhantomData;

/// Work that is borrowed, and computes what `B` says. So a worker's thread, which is told of its job by types alone,
/// knows what the leaves compute.
#[derive(Drop)]
pub struct BrandedWork<'a, B: WorkBrand, W: LeafWork> {
    work: &'a W,
    of: PhantomData<B>,
    ghost meaning: { W.meaning work.now ≡ B.work },
}

impl<'a, B: WorkBrand, W: LeafWork> BrandedWork<'a, B, W> {
    /// This work.
    pub fn of(work: &'a W) -> BrandedWork<'a, B, W>
        requires { W.meaning work.now ≡ B.work }
    {
        BrandedWork {
            work,
            of: PhantomData,
        }
    }

    /// The value of the leaf of work with the number `n`.
    pub fn run(&self, alloc: Global, n: u32) -> Result<u32, AllocError>
        ensures { IfOk result (λ value. value ≡ B.work n) }
    {
        self.work.run(alloc, n)
    }
}
