//! Why a builder refuses.
use std::alloc::{AllocError, AllocFailed};

/// Why a builder refuses.
#[derive(Clone, Copy, Debug, PartialEq, Eq)]
pub enum BuildError {
    /// The job has as many leaves as a job may have.
    Full,
    /// As many blocks are open as may be.
    Nesting,
    /// No block is open that could be closed.
    NoBlock,
    /// A block is still open.
    Unclosed,
    /// The value that a call is to take, or the reply that a leaf of work is to take, is not visible at its place.
    NotVisible,
    /// Memory ran out.
    Memory,
}

impl From<AllocError> for BuildError {
    ghost use Rattle.job_builder.specs.declared.error.BuildError.TheVariants.{Memory};
    ghost use Rattle.std.specs.Prelude.{◌≡◌};

    ghost from_gives = { λ _ e. e ≡ Memory };

    fn from(_refused: AllocError) -> BuildError {
        BuildError::Memory
    }
}

impl<T: Drop> From<AllocFailed<T>> for BuildError {
    ghost use Rattle.job_builder.specs.declared.error.BuildError.TheVariants.{Memory};
    ghost use Rattle.std.specs.Prelude.{◌≡◌};

    ghost from_gives = { λ _ e. e ≡ Memory };

    fn from(_refused: AllocFailed<T>) -> BuildError {
        BuildError::Memory
    }
}
