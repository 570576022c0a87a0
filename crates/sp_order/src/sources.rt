//! The sources of a job's leaves: a leaf's source is the leaf whose value is the argument of its call, or the number of
//! its work.
ghost use Rattle.std.specs.Prelude.{◌≡◌, ℕ, ◌+◌, ◌<◌, length, Some, IfOk, slice_get};
ghost use Rattle.sp_order.specs.Code.SourcesView.{listed};
ghost use Rattle.sp_order.specs.Sources.{low_bits as lowest, with_value as valued};

use seq_objects::Op;
use std::alloc::{AllocError, Global};

/// For each leaf its source or none. It takes memory only where some leaf may have one.
#[derive(Drop)]
pub(crate) enum Sources {
    /// No leaf has a source.
    Absent,
    /// For each leaf, from left to right, its source or none.
    Each(Vec<Option<u32>>),
}

impl Sources {
    /// The source of this leaf, or `None` where it has none.
    pub(crate) fn of(&self, leaf: u32) -> Option<u32>
        requires { leaf < length (listed self.now (leaf + 1)) }
        ensures { (leaves : ℕ) → leaf < leaves → slice_get (listed self.now leaves) leaf ≡ Some result }
    {
        match self {
            Sources::Absent => None,
            Sources::Each(sources) => sources[leaf as usize],
        }
    }

    /// A copy, in time linear in the leaves.
    pub(crate) fn copied(&self, alloc: Global) -> Result<Sources, AllocError>
        ensures { (leaves : ℕ) → IfOk result (λ copy. listed copy leaves ≡ listed self.now leaves) }
    {
        match self {
            Sources::Absent => Ok(Sources::Absent),
            Sources::Each(sources) => {
                let mut copy = Vec::new(alloc);
                copy.extend_from_slice(sources.as_slice())?;
                Ok(Sources::Each(copy))
            }
        }
    }
}

/// The low 32 bits of a value.
pub fn low_bits(value: u64) -> u32
    ensures { result ≡ lowest value }
{
    (value % 0x1_0000_0000) as u32
}

/// The operation with the low 32 bits of this value as its argument.
pub fn with_value(op: Op, value: u64) -> Op
    ensures { result ≡ valued op value }
{
    op.with_argument(low_bits(value))
}
