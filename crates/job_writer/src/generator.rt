//! The generator: a job that inserts into all structures, queries the tree, and empties the stack and the queue.
ghost use Rattle.std.specs.Prelude.{◌≡◌, ◌+◌, ◌*◌, ◌≤◌, ◌++◌, map, length, IfOk, OnOk};
ghost use Rattle.std.specs.List.{AllByRecursion};
ghost use Rattle.limits.specs.declared.TheConstants.{MOST_GENERATED};
ghost use Rattle.seq_objects.specs.Objects.{number_of};
ghost use Rattle.sp_order.specs.Precedence.{tree_of, leaf_count};
ghost use Rattle.sp_order.specs.Sources.{TakeReplies};
ghost use Rattle.job_writer.specs.Code.Draws.{HaveSmallKeys};
ghost use Rattle.job_lang.specs.Orders.{join_by};
ghost use Rattle.job_writer.specs.Generator.{next_number, op_drawn, growing_ops, finds_for, pops_for, takes_for, calls, part, all_ops, all_parts, job_growing_by, generated};

use job_lang::join::{Order, join};
use seq_objects::{Act, Op};
use sp_order::{Job, Shape};
use std::alloc::{AllocError, Global};

/// The next number of the sequence: a linear congruential generator modulo 2^64.
fn next_number(number: u64) -> u64
    ensures { result ≡ next_number number }
{
    number
        .wrapping_mul(6_364_136_223_846_793_005)
        .wrapping_add(1_442_695_040_888_963_407)
}

/// The operation that a number draws, by its upper 32 bits.
fn op_drawn(number: u64) -> Op
    ensures { result ≡ op_drawn number }
{
    let upper = (number >> 32) as u32;
    let argument = upper / 4 % 65_536;
    match upper % 4 {
        0 => Op::CounterAdd(0, argument),
        1 => Op::Push(0, argument),
        2 => Op::TreeInsert(0, argument),
        _ => Op::PqInsert(0, argument),
    }
}

/// The operations that the `size` numbers after the seed draw.
fn growing_ops(alloc: Global, seed: u64, size: u32) -> Result<Vec<Op>, AllocError>
    ensures { IfOk result (λ ops. ops.items ≡ growing_ops seed size) }
{
    let mut number = seed;
    let mut ops = Vec::new(alloc);
    for _ in 0..size {
        number = next_number(number);
        ops.push(op_drawn(number))?;
    }
    Ok(ops)
}

/// For each key that is inserted into the tree, in order, a find of that key plus 1.
fn finds_for(alloc: Global, ops: &[Op]) -> Result<Vec<Op>, AllocError>
    requires { HaveSmallKeys ops.now }
    ensures { IfOk result (λ finds. finds.items ≡ finds_for ops.now) }
{
    let mut finds = Vec::new(alloc);
    for op in ops {
        if let Op::TreeInsert(_, key) = op {
            finds.push(Op::TreeFind(0, *key + 1))?;
        }
    }
    Ok(finds)
}

/// A pop for each push, and one more.
fn pops_for(alloc: Global, ops: &[Op]) -> Result<Vec<Op>, AllocError>
    ensures { IfOk result (λ pops. pops.items ≡ pops_for ops.now) }
{
    let mut pops = vec![in alloc; Op::Pop(0)]?;
    for op in ops {
        if let Op::Push(..) = op {
            pops.push(Op::Pop(0))?;
        }
    }
    Ok(pops)
}

/// A take for each insert of the queue, and one more.
fn takes_for(alloc: Global, ops: &[Op]) -> Result<Vec<Op>, AllocError>
    ensures { IfOk result (λ takes. takes.items ≡ takes_for ops.now) }
{
    let mut takes = vec![in alloc; Op::PqTake(0)]?;
    for op in ops {
        if let Op::PqInsert(..) = op {
            takes.push(Op::PqTake(0))?;
        }
    }
    Ok(takes)
}

/// Appends a part: its calls to `acts`, and the shape of its leaves, if it has any, to `parts`.
fn push_part(
    alloc: Global,
    order: Order,
    ops: &[Op],
    acts: &mut Vec<Act>,
    parts: &mut Vec<Shape>,
) -> Result<(), AllocError>
    ensures acts { OnOk result (acts.new.items ≡ acts.old.items ++ calls ops.now) }
    ensures parts { OnOk result
        (map tree_of parts.new.items ≡ map tree_of parts.old.items ++ part (join_by order) ops.now) }
{
    let mut leaves = Vec::new(alloc);
    for op in ops {
        acts.push(Act::Call(*op))?;
        leaves.push(Shape::Leaf)?;
    }
    if let Some(shape) = join(alloc, order, leaves)? {
        parts.push(shape)?;
    }
    Ok(())
}

/// Appends the four parts of the job with this growing phase.
fn push_parts(
    alloc: Global,
    ops: &[Op],
    acts: &mut Vec<Act>,
    parts: &mut Vec<Shape>,
) -> Result<(), AllocError>
    requires { HaveSmallKeys ops.now }
    ensures acts { OnOk result (acts.new.items ≡ acts.old.items ++ calls (all_ops ops.now)) }
    ensures parts { OnOk result
        (map tree_of parts.new.items ≡ map tree_of parts.old.items ++ all_parts ops.now) }
{
    push_part(alloc, Order::Parallel, ops, acts, parts)?;
    push_part(alloc, Order::Parallel, &finds_for(alloc, ops)?, acts, parts)?;
    push_part(alloc, Order::Series, &pops_for(alloc, ops)?, acts, parts)?;
    push_part(alloc, Order::Series, &takes_for(alloc, ops)?, acts, parts)
}

/// The job with this growing phase: its parts, in series.
#[tactic(auto, using(crate::proofs::GeneratorLemmas::Counts::leaves_are_acts, crate::proofs::GeneratorLemmas::Counts::few_acts, crate::proofs::GeneratorLemmas::Each::all_unnamed))]
fn job_growing_by(alloc: Global, ops: &[Op]) -> Result<Job, AllocError>
    requires few { length ops.now ≤ MOST_GENERATED }
    requires small { HaveSmallKeys ops.now }
    requires first { AllByRecursion (λ op. number_of op ≡ 0) ops.now }
    ensures job { IfOk result (λ job. job ≡ job_growing_by ops.now) }
    ensures leaves { IfOk result (λ job. leaf_count job.shape ≤ 2 * length ops.now + 2) }
{
    let mut acts = Vec::new(alloc);
    let mut parts = Vec::new(alloc);
    push_parts(alloc, ops, &mut acts, &mut parts)?;
    let shape = join(alloc, Order::Series, parts)?;
    Ok(Job::of(shape, acts))
}

/// The job of `seed` and `size`: a growing phase of `size` calls drawn from the seed, an asking phase and a shrinking
/// phase.
#[tactic(auto, using(crate::proofs::GeneratorLemmas::Draws::length_growing, crate::proofs::GeneratorLemmas::Draws::small_keys, crate::proofs::GeneratorLemmas::Draws::first_growing))]
pub fn generate(alloc: Global, seed: u64, size: u32) -> Result<Job, AllocError>
    requires some { 1 ≤ size }
    requires most { size ≤ MOST_GENERATED }
    ensures job { IfOk result (λ job. job ≡ generated seed size) }
    ensures leaves { IfOk result (λ job. leaf_count job.shape ≤ 2 * size + 2) }
    ensures replies { IfOk result (λ job. TakeReplies job.acts job.sources) }
{
    let ops = growing_ops(alloc, seed, size)?;
    job_growing_by(alloc, &ops)
}
