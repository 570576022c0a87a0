//! A small job, with its plan written out by hand.
ghost use Rattle.std.specs.Prelude.{◌≡◌, Some, IfOk};
ghost use Rattle.sp_order.specs.Precedence.{leaf, seq, par, leaves};

use seq_objects::Act;
use sp_order::{Job, Kind, Move, Plan, Shape};
use std::alloc::{AllocError, Global};
use std::fmt::Write;
use std::test::Fail;
use test_rows::all_hold;

/// The nodes of the small job's plan, each with what it is and what follows it.
const NODES: &str = "0 series 1 2, the root
1 leaf 0, opens the second side of 0
2 parallel 3 4, finishes 0
3 leaf 1, arrives at 2
4 leaf 2, arrives at 2
";

/// Two leaves of the small job, and whether the first is before the second.
const BEFORE: &[(u32, u32, bool)] = &[
    (0, 1, true),
    (0, 2, true),
    (0, 0, false),
    (1, 0, false),
    (1, 2, false),
    (2, 1, false),
];

/// `work 1 par { work 2 work 3 }`
fn small_job(alloc: Global) -> Result<Job, AllocError>
    ensures { IfOk result (λ job. job.shape ≡ Some (seq leaf (par leaf leaf))) }
{
    let pair = Shape::Par(Box::new(alloc, Shape::Leaf)?, Box::new(alloc, Shape::Leaf)?);
    let shape = Shape::Seq(Box::new(alloc, Shape::Leaf)?, Box::new(alloc, pair)?);
    let acts = vec![in alloc; Act::Work(1), Act::Work(2), Act::Work(3)]?;
    Ok(Job::of(Some(shape), acts))
}

/// A line for each node of a plan.
fn listed(alloc: Global, plan: &Plan) -> Result<String, AllocError> {
    let mut lines = String::new(alloc);
    for node in 0..plan.nodes() {
        match plan.kind(node) {
            Kind::LeafNode(leaf) => write!(lines, "{node} leaf {leaf}, ")?,
            Kind::SeqNode(left, right) => write!(lines, "{node} series {left} {right}, ")?,
            Kind::ParNode(left, right) => write!(lines, "{node} parallel {left} {right}, ")?,
        }
        match plan.after(node) {
            Move::Root => writeln!(lines, "the root")?,
            Move::OpenSecond(parent) => writeln!(lines, "opens the second side of {parent}")?,
            Move::FinishParent(parent) => writeln!(lines, "finishes {parent}")?,
            Move::Arrive(parent) => writeln!(lines, "arrives at {parent}")?,
        }
    }
    Ok(lines)
}

/// Whether the small job is two deep, and its plan has these nodes and its leaves there.
fn is_numbered(alloc: Global) -> Result<bool, AllocError> {
    let job = small_job(alloc)?;
    let plan = Plan::of(alloc, &job)?;
    let nodes = (plan.node_of(0), plan.node_of(1), plan.node_of(2));
    Ok(job.depth() == 2 && nodes == (1, 3, 4) && listed(alloc, &plan)?.as_str() == NODES)
}

#[test]
fn nodes_are_numbered_in_preorder(rt: HostRuntime) -> Result<(), Fail> {
    assert!(rt; is_numbered(rt.alloc())?);
    Ok(())
}

/// The place of the first two leaves with another order, if there are any.
fn first_misordered(plan: &Plan) -> Option<usize>
    requires { leaves plan.now ≡ 3 }
{
    for (place, row) in BEFORE.iter().enumerate() {
        let (u, v, expected) = *row;
        if u >= 3 || v >= 3 || plan.before(u, v) != expected {
            return Some(place);
        }
    }
    None
}

#[test]
fn leaves_are_ordered_by_series(rt: HostRuntime) -> Result<(), Fail> {
    let plan = Plan::of(rt.alloc(), &small_job(rt.alloc())?)?;
    all_hold(first_misordered(&plan))
}
