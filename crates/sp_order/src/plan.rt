//! Plans: the nodes of a job's shape, numbered in preorder.
ghost use Rattle.std.specs.Prelude.{◌≡◌, ◌<◌, ◌*◌, ◌≤◌, ◌↔◌, Some, IsSome, IsTrue, IfOk};
ghost use Rattle.limits.specs.declared.TheConstants.{MOST_LEAVES};
ghost use Rattle.sp_order.specs.Precedence.{leaves, IsBefore};
ghost use Rattle.sp_order.specs.Preorder.{nodes_of};

mod builder;

use self::builder::{Pending, PlanBuilder};
use crate::job::Job;
use crate::node::{Kind, Move};
use std::alloc::{AllocError, Global};
use std::marker::Model;

/// The nodes of a shape, numbered in preorder: the root is node 0, the left side of node n is node n + 1, and its right
/// side is the node after all nodes of the left side. Leaves are numbered from 0, from left to right. Contracts see a
/// plan as the tree it stands for: `nodes_of` gives the nodes of that tree, and the law `plan_stands_for_tree` says
/// that they encode it.
#[derive(Drop)]
pub struct Plan {
    built: PlanBuilder,
}

impl Model for Plan {
    ghost use Rattle.sp_order.specs.Precedence.{Tree};
    ghost use Rattle.sp_order.specs.TreeEncoding.{coded_tree};
    ghost use Rattle.sp_order.specs.Code.PlanBuilder.{AreListsOf, lists_in};
    ghost use Rattle.sp_order.specs.Code.PlanView.{tree_of_kinds};

    ghost Value = { Tree };

    ghost coded = { coded_tree };

    ghost view = { λ p. tree_of_kinds p.built.kinds.items };

    ghost invariant = { λ p. AreListsOf (lists_in p.built) (tree_of_kinds p.built.kinds.items) };
}

impl Plan {
    /// The plan of the job's shape, in time linear in its leaves. It does not recurse, so a deep shape takes no more of
    /// the call stack than a flat one.
    pub fn of(alloc: Global, job: &Job) -> Result<Plan, AllocError>
        requires { IsSome job.now.shape }
        ensures { IfOk result (λ plan. Some plan ≡ job.now.shape) }
    {
        let mut builder = PlanBuilder::new(alloc);
        let mut stack = Vec::new(alloc);
        let shape = job.shape().unwrap();
        stack.push(Pending {
            shape,
            after: Move::Root,
        })?;
        while let Some(pending) = stack.pop() {
            builder.visit(pending, &mut stack)?;
        }
        Ok(Plan { built: builder })
    }

    /// The number of nodes. They are numbered from 0.
    pub fn nodes(&self) -> u32
        ensures nodes { result ≡ (nodes_of self.now).count }
        ensures most { result < 2 * MOST_LEAVES }
    {
        self.built.kinds.len() as u32
    }

    /// The kind of this node.
    pub fn kind(&self, node: u32) -> Kind
        requires { node < (nodes_of self.now).count }
        ensures { Some result ≡ (nodes_of self.now).kind node }
    {
        self.built.kinds[node as usize]
    }

    /// What follows this node once it is done.
    pub fn after(&self, node: u32) -> Move
        requires { node < (nodes_of self.now).count }
        ensures { result ≡ (nodes_of self.now).after node }
    {
        self.built.moves[node as usize]
    }

    /// The node of this leaf.
    pub fn node_of(&self, leaf: u32) -> u32
        requires { leaf < leaves self.now }
        ensures { result ≡ (nodes_of self.now).node_of leaf }
    {
        self.built.leaf_nodes[leaf as usize]
    }

    /// Whether leaf `u` is before leaf `v`. The walk climbs from `v` to the node at which the two leaves part, in time
    /// linear in the depth. It takes no memory.
    pub fn before(&self, u: u32, v: u32) -> bool
        requires u_in { u < leaves self.now }
        requires v_in { v < leaves self.now }
        ensures { IsTrue result ↔ IsBefore (Some self.now) u v }
    {
        let first = self.built.leaf_nodes[u as usize];
        let mut node = self.built.leaf_nodes[v as usize];
        while first < node {
            let after = self.built.moves[node as usize];
            let Some(parent) = after.parent() else {
                return false;
            };
            // The two leaves part at this parent: `u` is under its left side, and `v` under its right side.
            if parent < first {
                return after == Move::FinishParent(parent);
            }
            node = parent;
        }
        false
    }
}
