//! The errors of reading a job: a fault of the text, or memory ran out.
use crate::fault::JobFault;
use std::alloc::{AllocError, AllocFailed};
use thiserror::Error;

/// Why a text gave no job.
#[derive(Clone, Copy, Debug, Error)]
pub enum JobErr {
    /// The text has this fault.
    #[error(transparent)]
    Bad(JobFault),
    /// Memory ran out.
    #[error("out of memory")]
    Memory,
}

impl From<AllocError> for JobErr {
    ghost use Rattle.job_syntax.specs.declared.error.JobErr.TheVariants.{Memory};
    ghost use Rattle.std.specs.Prelude.{◌≡◌};

    ghost from_gives = { λ _ e. e ≡ Memory };

    fn from(_refused: AllocError) -> JobErr {
        JobErr::Memory
    }
}

impl<T: Drop> From<AllocFailed<T>> for JobErr {
    ghost use Rattle.job_syntax.specs.declared.error.JobErr.TheVariants.{Memory};
    ghost use Rattle.std.specs.Prelude.{◌≡◌};

    ghost from_gives = { λ _ e. e ≡ Memory };

    fn from(_refused: AllocFailed<T>) -> JobErr {
        JobErr::Memory
    }
}

impl From<JobFault> for JobErr {
    ghost use Rattle.job_syntax.specs.declared.error.JobErr.TheVariants.{Bad};
    ghost use Rattle.std.specs.Prelude.{◌≡◌};

    ghost from_gives = { λ f e. e ≡ Bad f };

    fn from(fault: JobFault) -> JobErr {
        JobErr::Bad(fault)
    }
}
