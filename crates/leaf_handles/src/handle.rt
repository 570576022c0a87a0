//! A leaf of a job, by number.
ghost use Rattle.std.specs.Prelude.{◌≡◌, ◌==◌};

use std::marker::Model;

/// A leaf of a job. Leaves are numbered from 0 in the order in which they were added; the number of the job is its
/// builder's. Contracts see a `HandleValue`.
#[derive(Clone, Copy)]
pub struct Handle {
    job: u32,
    leaf: u32,
}

impl Model for Handle {
    ghost use Rattle.leaf_handles.specs.Handles.{HandleValue};

    ghost Value = { HandleValue };

    ghost view = { λ h. record { job = h.job; leaf = h.leaf } };

    ghost inverse = { λ value. record { job = value.job; leaf = value.leaf } };
}

impl Handle {
    /// The handle of this leaf of a job.
    pub fn of(job: u32, leaf: u32) -> Handle
        ensures { result ≡ record { job = job; leaf = leaf } }
    {
        Handle { job, leaf }
    }

    /// The number of the leaf.
    pub fn leaf(&self) -> u32
        ensures { result ≡ self.now.leaf }
    {
        self.leaf
    }

    /// Whether it is of the job with this number.
    pub fn is_of(&self, job: u32) -> bool
        ensures { result ≡ (self.now.job == job) }
    {
        self.job == job
    }
}
