//! The work of `seq_objects` as the work of leaves.
ghost use Rattle.std.specs.Prelude.{◌≡◌, IfOk};
ghost use Rattle.seq_objects.specs.Spin.{spin_of};

use crate::function::LeafWork;
use seq_objects::work::spin;
use std::alloc::{AllocError, Global};

/// A leaf with the number `n` takes `n` steps of work, as the leaves of a job text do.
#[derive(Clone, Copy)]
pub struct Spin;

impl LeafWork for Spin {
    ghost meaning = { λ self. spin_of };

    /// The value of `n` steps of work. It takes no memory.
    fn run(&self, _alloc: Global, n: u32) -> Result<u32, AllocError>
        ensures { IfOk result (λ value. value ≡ spin_of n) }
    {
        Ok(spin(n))
    }
}
