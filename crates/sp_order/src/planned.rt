//! A job with its plan: the form of a job that a run keeps.
ghost use Rattle.std.specs.Prelude.{◌≡◌, ◌<◌, ◌*◌, Some, IsSome, IfOk, slice_get};
ghost use Rattle.limits.specs.declared.TheConstants.{MOST_LEAVES};
ghost use Rattle.sp_order.specs.Jobs.{IsJob, job_tree};
ghost use Rattle.sp_order.specs.Precedence.{leaves};
ghost use Rattle.sp_order.specs.Preorder.{nodes_of};

use crate::job::Job;
use crate::node::{Kind, Move};
use crate::plan::Plan;
use crate::sources::Sources;
use job_names::Name;
use seq_objects::Act;
use std::alloc::{AllocError, Global};
use std::marker::Model;

/// A job that has leaves, with the plan of its shape. Contracts see it as the job itself.
#[derive(Drop)]
pub struct PlannedJob {
    plan: Plan,
    acts: Vec<Act>,
    sources: Sources,
    names: Vec<Name>,
}

impl Model for PlannedJob {
    ghost use Rattle.std.specs.Prelude.{Some};
    ghost use Rattle.sp_order.specs.Code.SourcesView.{job_of};
    ghost use Rattle.sp_order.specs.Jobs.{JobValue, coded_job, IsJob};

    ghost Value = { JobValue };

    ghost coded = { coded_job };

    ghost view = { λ p. job_of (Some p.plan) p.acts.items p.sources p.names.items };

    ghost invariant = { λ p. IsJob (job_of (Some p.plan) p.acts.items p.sources p.names.items) };
}

impl PlannedJob {
    /// Plans the job: makes the plan of its shape and copies its acts, sources and names, in time linear in the leaves.
    pub fn of(alloc: Global, job: &Job) -> Result<PlannedJob, AllocError>
        requires { IsSome job.now.shape }
        ensures { IfOk result (λ planned. planned ≡ job.now) }
    {
        let plan = Plan::of(alloc, job)?;
        let mut acts = Vec::new(alloc);
        acts.extend_from_slice(job.acts())?;
        let sources = job.copied_sources(alloc)?;
        let mut names = Vec::new(alloc);
        names.extend_from_slice(job.names())?;
        Ok(PlannedJob {
            plan,
            acts,
            sources,
            names,
        })
    }

    /// The number of nodes of the plan. They are numbered from 0.
    pub fn nodes(&self) -> u32
        ensures nodes { result ≡ (nodes_of (job_tree self.now)).count }
        ensures most { result < 2 * MOST_LEAVES }
        ensures shape { self.now.shape ≡ Some (job_tree self.now) }
        ensures job { IsJob self.now }
    {
        self.plan.nodes()
    }

    /// The kind of this node.
    pub fn kind(&self, node: u32) -> Kind
        requires { node < (nodes_of (job_tree self.now)).count }
        ensures { Some result ≡ (nodes_of (job_tree self.now)).kind node }
    {
        self.plan.kind(node)
    }

    /// What follows this node once it is done.
    pub fn after(&self, node: u32) -> Move
        requires { node < (nodes_of (job_tree self.now)).count }
        ensures { result ≡ (nodes_of (job_tree self.now)).after node }
    {
        self.plan.after(node)
    }

    /// The node of this leaf.
    pub fn node_of(&self, leaf: u32) -> u32
        requires { leaf < leaves (job_tree self.now) }
        ensures { result ≡ (nodes_of (job_tree self.now)).node_of leaf }
    {
        self.plan.node_of(leaf)
    }

    /// The acts of the leaves, from left to right: at most `MOST_LEAVES`.
    pub fn acts(&self) -> &[Act]
        ensures acts { result.now ≡ self.now.acts }
        ensures job { IsJob self.now }
    {
        self.acts.as_slice()
    }

    /// The act of this leaf.
    pub fn act(&self, leaf: u32) -> Act
        requires { leaf < leaves (job_tree self.now) }
        ensures { slice_get self.now.acts leaf ≡ Some result }
    {
        self.acts[leaf as usize]
    }

    /// The source of this leaf: the leaf whose value it takes, or `None` where it has none.
    pub fn source(&self, leaf: u32) -> Option<u32>
        requires { leaf < leaves (job_tree self.now) }
        ensures { slice_get self.now.sources leaf ≡ Some result }
    {
        self.sources.of(leaf)
    }
}
