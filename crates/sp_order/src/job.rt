//! Jobs: a shape, for each of its leaves an act, and a source or none, and the names of objects.
ghost use Rattle.std.specs.Prelude.{◌≡◌, ◌<◌, ◌≤◌, [], None, Some, IfOk, length, map, replicate, slice_get};
ghost use Rattle.std.specs.Option.{option_map};
ghost use Rattle.limits.specs.declared.TheConstants.{MOST_LEAVES};
ghost use Rattle.job_names.specs.Names.{spelling};
ghost use Rattle.sp_order.specs.Objects.{AreNumbered, AreUnnamed, with_numbers as numbered_acts};
ghost use Rattle.sp_order.specs.Precedence.{tree_of, leaf_count};
ghost use Rattle.sp_order.specs.Sources.{AreSources};

use crate::objects::with_numbers;
use crate::shape::Shape;
use crate::sources::Sources;
use job_names::Name;
use seq_objects::Act;
use std::alloc::{AllocError, Global};
use std::marker::Model;

/// A shape, and the acts and sources of its leaves, from left to right: at most `MOST_LEAVES`. A leaf with a source takes
/// the value of that leaf, which is before it, as the argument of its call or the number of its work. The objects of its
/// calls with the numbers 1, 2, and so on have the names, in this order. A job without leaves has no shape. Contracts
/// see it as a `JobValue`.
#[derive(Drop)]
pub struct Job {
    shape: Option<Shape>,
    acts: Vec<Act>,
    sources: Sources,
    names: Vec<Name>,
}

impl Model for Job {
    ghost use Rattle.std.specs.Option.{option_map};
    ghost use Rattle.sp_order.specs.Code.SourcesView.{job_of};
    ghost use Rattle.sp_order.specs.Jobs.{JobValue, coded_job, IsJob};
    ghost use Rattle.sp_order.specs.Precedence.{tree_of};

    ghost Value = { JobValue };

    ghost coded = { coded_job };

    ghost view = { λ j. job_of (option_map tree_of j.shape) j.acts.items j.sources j.names.items };

    ghost invariant = { λ j. IsJob (job_of (option_map tree_of j.shape) j.acts.items j.sources j.names.items) };
}

impl Job {
    ghost use Rattle.sp_order.specs.Jobs.{IsJob};
    ghost use Rattle.sp_order.specs.Depth.{depth_of};
    ghost use Rattle.sp_order.specs.Code.SourcesView.{listed};

    /// The job of this shape, whose leaves do these acts. No leaf has a source, and no object has a name. It takes no
    /// memory.
    pub fn of(shape: Option<Shape>, acts: Vec<Act>) -> Job
        requires leaves { leaf_count (option_map tree_of shape) ≡ length acts.items }
        requires most { length acts.items ≤ MOST_LEAVES }
        requires unnamed { AreUnnamed acts.items }
        ensures shape { result.shape ≡ option_map tree_of shape }
        ensures acts { result.acts ≡ acts.items }
        ensures sources { result.sources ≡ replicate (length acts.items) None }
        ensures names { result.names ≡ [] }
    {
        let names = Vec::new(*acts.allocator());
        Job {
            shape,
            acts,
            sources: Sources::Absent,
            names,
        }
    }

    /// The job of this shape, whose leaves do these acts and have these sources. No object has a name. It takes no
    /// memory.
    pub fn with_sources(shape: Option<Shape>, acts: Vec<Act>, sources: Vec<Option<u32>>) -> Job
        requires leaves { leaf_count (option_map tree_of shape) ≡ length acts.items }
        requires most { length acts.items ≤ MOST_LEAVES }
        requires sources { AreSources (option_map tree_of shape) acts.items sources.items }
        requires unnamed { AreUnnamed acts.items }
        ensures shape { result.shape ≡ option_map tree_of shape }
        ensures acts { result.acts ≡ acts.items }
        ensures sources { result.sources ≡ sources.items }
        ensures names { result.names ≡ [] }
    {
        let names = Vec::new(*acts.allocator());
        Job {
            shape,
            acts,
            sources: Sources::Each(sources),
            names,
        }
    }

    /// The job with these names of objects, whose calls are of the objects with these numbers. All else stays. It takes
    /// no memory.
    pub fn with_objects(job: Job, objects: Vec<u32>, names: Vec<Name>) -> Job
        requires { AreNumbered job.acts objects.items (map (λ name. spelling name) names.items) }
        ensures shape { result.shape ≡ job.shape }
        ensures acts { result.acts ≡ numbered_acts job.acts objects.items }
        ensures sources { result.sources ≡ job.sources }
        ensures names { result.names ≡ map (λ name. spelling name) names.items }
    {
        Job {
            shape: job.shape,
            acts: with_numbers(job.acts, objects.as_slice()),
            sources: job.sources,
            names,
        }
    }

    /// The shape, or `None` for a job without leaves.
    pub fn shape(&self) -> Option<&Shape>
        ensures shape { option_map (λ shape. tree_of shape.now) result ≡ self.now.shape }
        ensures job { IsJob self.now }
    {
        self.shape.as_ref()
    }

    /// The acts of the leaves, from left to right: at most `MOST_LEAVES`.
    pub fn acts(&self) -> &[Act]
        ensures acts { result.now ≡ self.now.acts }
        ensures job { IsJob self.now }
    {
        self.acts.as_slice()
    }

    /// The names of the objects with the numbers 1, 2, and so on.
    pub fn names(&self) -> &[Name]
        ensures names { map (λ name. spelling name) result.now ≡ self.now.names }
        ensures job { IsJob self.now }
    {
        self.names.as_slice()
    }

    /// The source of this leaf: the leaf whose value it takes, or `None` where it has none.
    pub fn source(&self, leaf: u32) -> Option<u32>
        requires { leaf < leaf_count self.now.shape }
        ensures { slice_get self.now.sources leaf ≡ Some result }
    {
        self.sources.of(leaf)
    }

    /// The sources of the leaves, to be kept beside a plan.
    pub(crate) fn copied_sources(&self, alloc: Global) -> Result<Sources, AllocError>
        ensures { IfOk result (λ copy. listed copy (length self.now.acts) ≡ self.now.sources) }
    {
        self.sources.copied(alloc)
    }

    /// The depth of the shape in blocks: 0 without a shape and for a leaf, else one more than the deeper side. The
    /// recursion takes one call a level, and there are fewer levels than leaves.
    pub fn depth(&self) -> u32
        ensures depth { result ≡ depth_of self.now.shape }
        ensures most { result < MOST_LEAVES }
    {
        match &self.shape {
            None => 0,
            Some(shape) => shape.depth(),
        }
    }
}
