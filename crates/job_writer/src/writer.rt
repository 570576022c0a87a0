//! The writer of canonical texts.
ghost use Rattle.std.specs.Prelude.{◌≡◌, ◌<◌, ◌≤◌, ◌+◌, ◌++◌, [], IfOk, OnOk, length, take, drop, string_bytes};
ghost use Rattle.limits.specs.declared.TheConstants.{MOST_OPEN_BLOCKS};
ghost use Rattle.sp_order.specs.Precedence.{tree_of, leaves};
ghost use Rattle.sp_order.specs.Depth.{depth_of};
ghost use Rattle.sp_order.specs.Jobs.{IsJob};
ghost use Rattle.sp_order.specs.Phases.{HasNoSources};
ghost use Rattle.sp_order.specs.Sources.{TakeReplies};
ghost use Rattle.job_lang.specs.ActNumbers.{op_number, act_number, IsSmall};
ghost use Rattle.job_writer.specs.Code.Smalls.{IsSmallLeaf, AreSmallLeaves};
ghost use Rattle.job_lang.specs.Language.{IsJobOf};
ghost use Rattle.job_writer.specs.Canonical.{argument_text, act_text, leaf_text, first_leaf_text, tree_text, written_leaves, canonical_text};
ghost use Rattle.job_writer.specs.Code.Sides.{sides_text};
ghost use Rattle.job_writer.specs.Code.Writable.{texts_of, IsWritable, AreWritable};

mod written;

use crate::writer::written::{WrittenLeaf, written_leaves};
use call_words::push_call;
use job_names::Name;
use seq_objects::{Act, Op};
use sp_order::{Job, Shape};
use std::alloc::{AllocError, Global};
use std::fmt::Write;

/// Writes the argument of an operation, if it takes one: the name of its source, if it has one, else its number.
fn push_argument(text: &mut String, op: Op, source: Option<u32>) -> Result<(), AllocError>
    ensures text { OnOk result (string_bytes text.new ≡ string_bytes text.old ++ argument_text op source) }
    ensures small { IsSmall (op_number op) }
{
    let argument = op.argument();
    match (op.takes_argument(), source) {
        (false, _) => Ok(()),
        (true, None) => write!(text, "{argument}"),
        (true, Some(source)) => write!(text, "v{source}"),
    }
}

/// Writes an act with this source.
fn push_act(
    text: &mut String,
    names: &[Name],
    act: Act,
    source: Option<u32>,
) -> Result<(), AllocError>
    requires { IsWritable names.now act }
    ensures text { OnOk result (string_bytes text.new ≡ string_bytes text.old ++ act_text (texts_of names.now) act source) }
    ensures small { OnOk result (IsSmall (act_number act)) }
{
    match act {
        Act::Work(steps) => write!(text, "work {steps}"),
        Act::Call(op) => {
            push_call(text, names, op)?;
            push_argument(text, op, source)
        }
    }
}

/// Writes a leaf.
fn push_written(text: &mut String, names: &[Name], written: WrittenLeaf) -> Result<(), AllocError>
    requires { IsWritable names.now written.act }
    ensures text { OnOk result (string_bytes text.new ≡ string_bytes text.old ++ leaf_text (texts_of names.now) written) }
    ensures small { OnOk result (IsSmallLeaf written) }
{
    if written.named {
        let number = written.number;
        write!(text, "let v{number} = ")?;
    }
    push_act(text, names, written.act, written.source)
}

/// Writes the first of the leaves, and gives the rest of them.
fn push_leaf<'a>(
    text: &mut String,
    names: &[Name],
    written: &'a [WrittenLeaf],
) -> Result<&'a [WrittenLeaf], AllocError>
    requires { AreWritable names.now written.now }
    ensures text { OnOk result (string_bytes text.new ≡ string_bytes text.old ++ first_leaf_text (texts_of names.now) written.now) }
    ensures rest { IfOk result (λ rest. rest.now ≡ drop 1 written.now) }
    ensures small { OnOk result (AreSmallLeaves (take 1 written.now)) }
{
    match written.first() {
        None => Ok(written),
        Some(leaf) => {
            push_written(text, names, *leaf)?;
            Ok(&written[1..])
        }
    }
}

/// Writes the shape, whose leaves are the first of these, and gives the rest of them. The recursion is as deep as the
/// shape.
#[cycle(shapes)]
fn push_shape<'a>(
    text: &mut String,
    names: &[Name],
    shape: &Shape,
    written: &'a [WrittenLeaf],
) -> Result<&'a [WrittenLeaf], AllocError>
    requires { AreWritable names.now written.now }
    ensures text { OnOk result
        (string_bytes text.new ≡ string_bytes text.old ++ tree_text (texts_of names.now) (tree_of shape.now) written.now) }
    ensures rest { IfOk result (λ rest. rest.now ≡ drop (leaves (tree_of shape.now)) written.now) }
    ensures small { OnOk result (AreSmallLeaves (take (leaves (tree_of shape.now)) written.now)) }
{
    match shape {
        Shape::Leaf => push_leaf(text, names, written),
        Shape::Seq(left, right) => {
            text.push_str("seq ")?;
            push_sides(text, names, left, right, written)
        }
        Shape::Par(left, right) => {
            text.push_str("par ")?;
            push_sides(text, names, left, right, written)
        }
    }
}

/// Writes two shapes in braces, and gives the leaves after theirs.
#[cycle(shapes)]
fn push_sides<'a>(
    text: &mut String,
    names: &[Name],
    left: &Shape,
    right: &Shape,
    written: &'a [WrittenLeaf],
) -> Result<&'a [WrittenLeaf], AllocError>
    requires { AreWritable names.now written.now }
    ensures text { OnOk result
        (string_bytes text.new
        ≡ string_bytes text.old ++ sides_text (texts_of names.now) (tree_of left.now) (tree_of right.now) written.now) }
    ensures rest { IfOk result (λ rest.
        rest.now ≡ drop (leaves (tree_of left.now) + leaves (tree_of right.now)) written.now) }
    ensures small { OnOk result
        (AreSmallLeaves (take (leaves (tree_of left.now) + leaves (tree_of right.now)) written.now)) }
{
    text.push_str("{ ")?;
    let rest = push_shape(text, names, left, written)?;
    text.push_str(" ")?;
    let rest = push_shape(text, names, right, rest)?;
    text.push_str(" }")?;
    Ok(rest)
}

fn push_job(alloc: Global, text: &mut String, job: &Job) -> Result<(), AllocError>
    ensures text { OnOk result (string_bytes text.new ≡ string_bytes text.old ++ canonical_text job.now) }
    ensures small { OnOk result (AreSmallLeaves (written_leaves job.now)) }
    ensures job { IsJob job.now }
{
    match job.shape() {
        None => Ok(()),
        Some(shape) => {
            let written = written_leaves(alloc, job)?;
            push_shape(text, job.names(), shape, &written)?;
            text.push_str("\n")
        }
    }
}

/// The canonical text of a job whose leaves take replies alone, as those of all jobs of the language do: on one line,
/// with two items in every block. The reader gives the job back.
pub fn write_job(alloc: Global, job: &Job) -> Result<Vec<u8>, AllocError>
    requires depth { depth_of job.now.shape ≤ MOST_OPEN_BLOCKS }
    requires replies { TakeReplies job.now.acts job.now.sources }
    ensures text { IfOk result (λ text. text.items ≡ canonical_text job.now) }
    ensures short { job.now.names ≡ [] → IfOk result (λ text. length text.items < 1000000) }
    ensures plain { job.now.names ≡ [] → HasNoSources job.now → IfOk result (λ text. length text.items < 700000) }
    ensures reads_back { IfOk result (λ text. IsJobOf text.items job.now) }
{
    let mut text = String::new(alloc);
    push_job(alloc, &mut text, job)?;
    Ok(text.into_bytes())
}
