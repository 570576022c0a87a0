//! What leaves of work compute, as a type.
ghost use Rattle.std.specs.Prelude.{ℕ};

use crate::spin::Spin;
use std::marker::Brand;

/// What the leaves of work of a run compute, as a type. Only its type tells anything of a value behind a lock, so the
/// type of a core names it. A run by a `LeafWork` picks its own brand, with the meaning of that work.
pub trait WorkBrand {
    ghost work: { ℕ → ℕ };
}

impl WorkBrand for Brand {
    ghost use Rattle.seq_objects.specs.Spin.{spin_of};

    ghost work = { spin_of };
}

impl WorkBrand for Spin {
    ghost use Rattle.seq_objects.specs.Spin.{spin_of};

    ghost work = { spin_of };
}
