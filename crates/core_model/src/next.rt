//! The next act of a worker that has a task, by the task, the plan and the worker's call.
ghost use Rattle.std.specs.Prelude.{◌≡◌, ◌<◌, Some};
ghost use Rattle.core_model.specs.Next.{next_act, act_of_run, act_of_half, act_of_started, act_of_second, act_of_parent, act_of_arrive, act_of_whole, act_of_handed};
ghost use Rattle.core_model.specs.Operations.{leaf_of as leaf_of_kind};
ghost use Rattle.core_model.specs.Settings.{job_of, TaskIn};
ghost use Rattle.core_model.specs.declared.next.Next.TheVariants as acts;

use crate::event::Event;
use crate::setting::Setting;
use crate::status::CallState;
use crate::task::Task;
use seq_objects::{Act, Op, Reply};
use sp_order::laws::{plan_has_sides, plan_stands_for_tree};
use sp_order::node::{Kind, Move};

/// What a worker that has a task does next. Each act is one event of the model.
#[derive(Clone, Copy)]
pub enum Next {
    /// The leaf `leaf` at this node starts.
    Start {
        node: u32,
        leaf: u32,
    },
    /// This node becomes ready by this event, and `task` is the worker's next task.
    Open {
        node: u32,
        task: Task,
        event: Event,
    },
    /// The started leaf works on its number, here `steps`, and keeps the value of its work. Where the leaf has a source,
    /// its number is the low 32 bits of the source's value, and 0 stands here.
    Spin {
        node: u32,
        start: u64,
        leaf: u32,
        steps: u32,
    },
    /// The started leaf posts its call.
    Call {
        node: u32,
        start: u64,
        leaf: u32,
        op: Op,
    },
    /// The started leaf keeps the value of the reply to its call.
    Got {
        node: u32,
        start: u64,
        reply: Reply,
    },
    /// The leaf ends.
    End {
        node: u32,
        start: u64,
    },
    /// This node is done by this event.
    Finish {
        node: u32,
        event: Event,
    },
    /// `side` arrives at its parallel block `parent`.
    Arrive {
        parent: u32,
        left: u32,
        right: u32,
        side: u32,
    },
}

/// The act after a claim: a leaf starts, and a block opens a side, the right one first in a parallel block.
fn of_run(kind: Kind, node: u32) -> Next
    ensures { Some result ≡ act_of_run (Some kind) node }
{
    match kind {
        Kind::LeafNode(leaf) => Next::Start { node, leaf },
        Kind::SeqNode(left, right) => Next::Open {
            node: left,
            task: Task::Idle,
            event: Event::OpenSeqLeft {
                parent: node,
                left,
                right,
            },
        },
        Kind::ParNode(left, right) => Next::Open {
            node: right,
            task: Task::Half(node),
            event: Event::OpenParRight {
                parent: node,
                left,
                right,
            },
        },
    }
}

/// The act after a parallel block's right side was opened: the left side opens.
fn of_half(kind: Kind, parent: u32) -> Option<Next>
    ensures { result ≡ act_of_half (Some kind) parent }
{
    let Kind::ParNode(left, right) = kind else {
        return None;
    };
    Some(Next::Open {
        node: left,
        task: Task::Idle,
        event: Event::OpenParLeft {
            parent,
            left,
            right,
        },
    })
}

/// The act of a started leaf. A leaf of work spins. A calling leaf posts its call, waits while that is out, and keeps
/// the value of the reply.
fn of_started(act: Act, call: CallState, node: u32, start: u64, leaf: u32) -> Option<Next>
    ensures { result ≡ act_of_started act call node start leaf }
{
    match act {
        Act::Work(steps) => Some(Next::Spin {
            node,
            start,
            leaf,
            steps,
        }),
        Act::Call(op) => match call {
            CallState::NotCalled => Some(Next::Call {
                node,
                start,
                leaf,
                op,
            }),
            CallState::Out => None,
            CallState::Got(receipt) => Some(Next::Got {
                node,
                start,
                reply: receipt.reply,
            }),
        },
    }
}

/// The act after the left side of a series block: the right side opens.
fn of_second(kind: Kind, parent: u32) -> Option<Next>
    ensures { result ≡ act_of_second (Some kind) parent }
{
    let Kind::SeqNode(left, right) = kind else {
        return None;
    };
    Some(Next::Open {
        node: right,
        task: Task::Idle,
        event: Event::OpenSeqRight {
            parent,
            left,
            right,
        },
    })
}

/// The act after the right side of a series block: the block is done.
fn of_parent(kind: Kind, parent: u32) -> Option<Next>
    ensures { result ≡ act_of_parent (Some kind) parent }
{
    let Kind::SeqNode(left, right) = kind else {
        return None;
    };
    Some(Next::Finish {
        node: parent,
        event: Event::FinishSeq {
            parent,
            left,
            right,
        },
    })
}

/// The act after `side`, a side of a parallel block: it arrives at the block.
fn of_arrive(kind: Kind, parent: u32, side: u32) -> Option<Next>
    ensures { result ≡ act_of_arrive (Some kind) parent side }
{
    let Kind::ParNode(left, right) = kind else {
        return None;
    };
    Some(Next::Arrive {
        parent,
        left,
        right,
        side,
    })
}

/// The act of the worker whose side arrived second: the parallel block is done.
fn of_handed(kind: Kind, parent: u32) -> Option<Next>
    ensures { result ≡ act_of_handed (Some kind) parent }
{
    let Kind::ParNode(left, right) = kind else {
        return None;
    };
    Some(Next::Finish {
        node: parent,
        event: Event::FinishPar {
            parent,
            left,
            right,
        },
    })
}

/// The leaf at a node of this kind, 0 if it is a block.
fn leaf_of(kind: Kind) -> u32
    ensures { result ≡ leaf_of_kind (Some kind) }
{
    match kind {
        Kind::LeafNode(leaf) => leaf,
        _ => 0,
    }
}

impl Setting {
    /// The act of a leaf, `Work(0)` if no leaf has the number.
    fn act_of(&self, leaf: u32) -> Act
        ensures { result ≡ (job_of self.now).act leaf }
    {
        match self.job.acts().get(leaf as usize) {
            Some(act) => *act,
            None => Act::Work(0),
        }
    }

    /// The act of a worker whose node is done, by the plan's move after that node.
    fn next_whole(&self, node: u32) -> Option<Next>
        requires { node < (job_of self.now).plan.count }
        ensures { result ≡ act_of_whole (job_of self.now).plan ((job_of self.now).plan.after node) node }
    {
        plan_stands_for_tree();
        plan_has_sides();
        match self.job.after(node) {
            Move::Root => None,
            Move::OpenSecond(parent) => of_second(self.job.kind(parent), parent),
            Move::FinishParent(parent) => of_parent(self.job.kind(parent), parent),
            Move::Arrive(parent) => of_arrive(self.job.kind(parent), parent, node),
        }
    }

    /// The next act of a worker with this task and this call state: `None` if the task is `Idle`, if the call is out,
    /// and after the root.
    ///
    /// Memory: none.
    #[inline(always)]
    pub fn next(&self, task: Task, call: CallState) -> Option<Next>
        requires { TaskIn (job_of self.now).plan.count task }
        ensures { result ≡ next_act (job_of self.now) task call }
    {
        match task {
            Task::Idle => None,
            Task::Run(node) => Some(of_run(self.job.kind(node), node)),
            Task::Half(parent) => of_half(self.job.kind(parent), parent),
            Task::Started { node, start } => {
                let leaf = leaf_of(self.job.kind(node));
                of_started(self.act_of(leaf), call, node, start, leaf)
            }
            Task::Kept { node, start } => Some(Next::End { node, start }),
            Task::Ended { node, start, end } => Some(Next::Finish {
                node,
                event: Event::FinishLeaf { node, start, end },
            }),
            Task::Whole(node) => self.next_whole(node),
            Task::Handed(parent) => of_handed(self.job.kind(parent), parent),
        }
    }
}
