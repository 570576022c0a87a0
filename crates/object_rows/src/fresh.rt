//! Makes structures with the opening content.
ghost use Rattle.std.specs.Prelude.{◌≡◌, IfOk};
ghost use Rattle.seq_objects.specs.Objects.{opening};

use seq_objects::Batched;
use std::alloc::{AllocError, Global};

/// What makes a structure at its first call.
pub trait Fresh<T: Batched> {
    /// A structure whose content is the opening one.
    fn fresh(alloc: Global) -> Result<T, AllocError>
        ensures { IfOk result (λ structure. T.content structure ≡ opening) };
}
