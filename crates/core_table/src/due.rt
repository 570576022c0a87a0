//! Where the act that is due takes place, from the pass's task and the plan. The act's event is not built.
ghost use Rattle.std.specs.Prelude.{◌≡◌, ℕ, Some};
ghost use Rattle.core_model.specs.Next.{act_of_run, act_of_half, act_of_second};
ghost use Rattle.core_model.specs.declared.next.Next.TheVariants as acts;
ghost use Rattle.table_rule.specs.CoreWords.{Event, Started};
ghost use Rattle.sp_order.specs.declared.node.Kind.TheVariants.{LeafNode as LeafOf};
ghost use Rattle.table_rule.specs.DueActs.{IsOpenDue, IsSourceDue, IsFinishDue, IsArriveDue};
ghost use Rattle.core_table.specs.Passes.{IsPassOf, job_in, next_in, pass_view, view};

use crate::table::{CoreTable, Pass};
use core_model::Task;
use leaf_work::WorkBrand;
use sp_order::node::{Kind, Move};

/// A side of a block that is to open, and the task that the pass has after that.
#[derive(Clone, Copy)]
pub(crate) struct Side {
    pub(crate) node: u32,
    pub(crate) task: Task,
}

/// The side that opens first: the right one of a parallel block, the left one of a series.
#[inline(always)]
fn first_side(kind: Kind, node: u32) -> Side
    requires due { IsOpenDue (act_of_run (Some kind) node) }
    ensures { (event : Event) × (act_of_run (Some kind) node ≡ Some (acts.Open result.node result.task event)) }
{
    match kind {
        Kind::ParNode(_left, right) => Side {
            node: right,
            task: Task::Half(node),
        },
        Kind::SeqNode(left, _right) => Side {
            node: left,
            task: Task::Idle,
        },
        Kind::LeafNode(_leaf) => unreachable!(),
    }
}

/// The left side of a parallel block.
#[inline(always)]
fn left_side(kind: Kind, parent: u32) -> Side
    requires due { IsOpenDue (act_of_half (Some kind) parent) }
    ensures { (event : Event) × (act_of_half (Some kind) parent ≡ Some (acts.Open result.node result.task event)) }
{
    let Kind::ParNode(left, _right) = kind else {
        unreachable!()
    };
    Side {
        node: left,
        task: Task::Idle,
    }
}

/// The right side of a series.
#[inline(always)]
fn right_side(kind: Kind, parent: u32) -> Side
    requires due { IsOpenDue (act_of_second (Some kind) parent) }
    ensures { (event : Event) × (act_of_second (Some kind) parent ≡ Some (acts.Open result.node result.task event)) }
{
    let Kind::SeqNode(_left, right) = kind else {
        unreachable!()
    };
    Side {
        node: right,
        task: Task::Idle,
    }
}

impl<B: WorkBrand> CoreTable<B> {
    /// The side that the pass opens next. Memory: none.
    #[inline(always)]
    pub(crate) fn side_due(&self, pass: &Pass) -> Side
        requires pass { IsPassOf self.now pass.now }
        requires due { IsOpenDue (next_in self.now (pass_view pass.now)) }
        ensures { (event : Event) × (next_in self.now (pass_view pass.now)
            ≡ Some (acts.Open result.node result.task event)) }
    {
        self.laws_hold();
        match pass.task {
            Task::Run(node) => first_side(self.setting.job.kind(node), node),
            Task::Half(parent) => left_side(self.setting.job.kind(parent), parent),
            Task::Whole(node) => {
                let Move::OpenSecond(parent) = self.setting.job.after(node) else {
                    unreachable!()
                };
                right_side(self.setting.job.kind(parent), parent)
            }
            _ => unreachable!(),
        }
    }

    /// The source of the leaf that the pass is to call or to work for. Memory: none.
    pub(crate) fn source_due(&self, pass: &Pass) -> u32
        requires pass { IsPassOf self.now pass.now }
        requires due { IsSourceDue (job_in self.now).source (next_in self.now (pass_view pass.now)) }
        ensures { (n : ℕ) × (start : ℕ) × (leaf : ℕ) × ((view pass.now).own.task ≡ Started n start)
            × ((job_in self.now).plan.kind n ≡ Some (LeafOf leaf)) × ((job_in self.now).source leaf ≡ Some result) }
    {
        self.laws_hold();
        let Task::Started { node, .. } = pass.task else {
            unreachable!()
        };
        let Kind::LeafNode(leaf) = self.setting.job.kind(node) else {
            unreachable!()
        };
        match self.source(leaf) {
            Some(source) => source,
            None => unreachable!(),
        }
    }

    /// The node that the pass marks as done next. Memory: none.
    #[inline(always)]
    pub(crate) fn finish_due(&self, pass: &Pass) -> u32
        requires pass { IsPassOf self.now pass.now }
        requires due { IsFinishDue (next_in self.now (pass_view pass.now)) }
        ensures { (event : Event) × (next_in self.now (pass_view pass.now) ≡ Some (acts.Finish result event)) }
    {
        match pass.task {
            Task::Ended { node, .. } => node,
            Task::Handed(parent) => parent,
            Task::Whole(node) => {
                let Move::FinishParent(parent) = self.setting.job.after(node) else {
                    unreachable!()
                };
                parent
            }
            _ => unreachable!(),
        }
    }

    /// The parallel block at which the pass arrives next. Memory: none.
    #[inline(always)]
    pub(crate) fn arrival_due(&self, pass: &Pass) -> u32
        requires pass { IsPassOf self.now pass.now }
        requires due { IsArriveDue (next_in self.now (pass_view pass.now)) }
        ensures { (left : ℕ) × (right : ℕ) × (side : ℕ) × (next_in self.now (pass_view pass.now)
            ≡ Some (acts.Arrive result left right side)) }
    {
        let Task::Whole(node) = pass.task else {
            unreachable!()
        };
        let Move::Arrive(parent) = self.setting.job.after(node) else {
            unreachable!()
        };
        parent
    }
}
