//! The rows of a job's leaves: where each stands in the text, and what it does.
ghost use Rattle.std.specs.Prelude.{◌≡◌, ◌<◌, ◌≤◌, ◌++◌, length, map, IfOk, IfSome, OnOk, string_bytes};
ghost use Rattle.limits.specs.declared.TheConstants.{MOST_JOB_BYTES};
ghost use Rattle.job_names.specs.Names.{AreSpelled, spelling};
ghost use Rattle.sp_order.specs.Objects.{number_in};
ghost use Rattle.job_lang.specs.Language.{IsJobOf};
ghost use Rattle.leaf_places.specs.Rows.{leaf_words, copies_words, act_words, row_text, rows_text, AreRowsOf};

use crate::place::LeafPlace;
use crate::reader::places_in;
use call_words::{push_call, push_op};
use job_names::Name;
use seq_objects::Act;
use sp_order::Job;
use std::alloc::{AllocError, Global};
use std::fmt::Write;

/// Appends a leaf by its number and its line.
fn push_leaf(text: &mut String, places: &[LeafPlace], leaf: u32) -> Result<(), AllocError>
    requires { leaf < length places.now }
    ensures { OnOk result (string_bytes text.new ≡ string_bytes text.old ++ leaf_words places.now leaf) }
{
    let line = places[leaf as usize].line();
    write!(text, "leaf {leaf} line {line}")
}

/// Appends the copies of the loops around a leaf.
fn push_copies(text: &mut String, copies: &[u32]) -> Result<(), AllocError>
    ensures { OnOk result (string_bytes text.new ≡ string_bytes text.old ++ copies_words copies.now) }
{
    for copy in copies {
        let copy = *copy;
        write!(text, " copy {copy}")?;
    }
    Ok(())
}

/// Appends what a leaf does, with its source where it has one.
fn push_act(
    text: &mut String,
    names: &[Name],
    places: &[LeafPlace],
    act: Act,
    source: Option<u32>,
) -> Result<(), AllocError>
    requires number { number_in act ≤ length names.now }
    requires spelled { AreSpelled (map (λ name. spelling name) names.now) }
    requires source { IfSome source (λ source. source < length places.now) }
    ensures { OnOk result
        (string_bytes text.new
        ≡ string_bytes text.old ++ act_words (map (λ name. spelling name) names.now) places.now act source) }
{
    match (act, source) {
        (Act::Work(steps), _) => write!(text, "work {steps}"),
        (Act::Call(op), None) => push_op(text, names, op),
        (Act::Call(op), Some(source)) => {
            push_call(text, names, op)?;
            text.push_str("reply of ")?;
            push_leaf(text, places, source)
        }
    }
}

/// Appends the row of a leaf.
fn push_row(text: &mut String, job: &Job, places: &[LeafPlace], leaf: u32) -> Result<(), AllocError>
    requires leaf { leaf < length job.now.acts }
    requires places { length places.now ≡ length job.now.acts }
    ensures { OnOk result (string_bytes text.new ≡ string_bytes text.old ++ row_text job.now places.now leaf) }
{
    let act = job.acts()[leaf as usize];
    let source = job.source(leaf);
    push_leaf(text, places, leaf)?;
    push_copies(text, places[leaf as usize].copies())?;
    text.push_str(" ")?;
    push_act(text, job.names(), places, act, source)?;
    text.push_str("\n")
}

/// The rows of the leaves of a job, which have these places.
fn rows(alloc: Global, job: &Job, places: &[LeafPlace]) -> Result<Vec<u8>, AllocError>
    requires { length places.now ≡ length job.now.acts }
    ensures { IfOk result (λ rows. rows.items ≡ rows_text job.now places.now) }
{
    let mut text = String::new(alloc);
    for leaf in 0..job.acts().len() as u32 {
        push_row(&mut text, job, places, leaf)?;
    }
    Ok(text.into_bytes())
}

/// The rows of the leaves of the job that a text has: a line for each, in the order of their numbers.
///
/// Time: linear in the text and in the rows.
pub fn rows_of(alloc: Global, text: &[u8], job: &Job) -> Result<Vec<u8>, AllocError>
    requires short { length text.now ≤ MOST_JOB_BYTES }
    requires accepted { IsJobOf text.now job.now }
    ensures { IfOk result (λ rows. AreRowsOf text.now job.now rows.items) }
{
    let places = places_in(alloc, text)?;
    rows(alloc, job, places.as_slice())
}
