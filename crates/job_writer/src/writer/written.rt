//! The leaves of a job, as the canonical text writes them.
ghost use Rattle.std.specs.Prelude.{◌≡◌, ℕ, ◌<◌, Bool, ◌||◌, Some, IfSome, IfOk, length, slice_get};
ghost use Rattle.job_writer.specs.Canonical.{is_leaf, is_source, written_leaves};

use seq_objects::Act;
use sp_order::Job;
use std::alloc::{AllocError, Global};
use std::marker::Model;

/// A leaf: its number, whether some leaf has it as its source, its act, and its own source.
#[derive(Clone, Copy)]
pub(crate) struct WrittenLeaf {
    pub(crate) number: u32,
    pub(crate) named: bool,
    pub(crate) act: Act,
    pub(crate) source: Option<u32>,
}

impl Model for WrittenLeaf {
    ghost use Rattle.job_writer.specs.Canonical.{WrittenLeaf as LeafInText};

    ghost Value = { LeafInText };

    ghost view = { λ leaf. record { number = leaf.number; named = leaf.named; act = leaf.act; source = leaf.source } };

    ghost inverse = { λ leaf. record { number = leaf.number; named = leaf.named; act = leaf.act; source = leaf.source } };
}

/// Marks a source, if there is one.
fn mark(named: &mut Vec<bool>, source: Option<u32>)
    requires { IfSome source (λ source. source < length named.old.items) }
    ensures count { length named.new.items ≡ length named.old.items }
    ensures each { (leaf : ℕ) (was : Bool) → slice_get named.old.items leaf ≡ Some was
        → slice_get named.new.items leaf ≡ Some (was || is_leaf leaf source) }
{
    if let Some(source) = source {
        named[source as usize] = true;
    }
}

/// For each leaf, whether some leaf has it as its source.
fn sources_of(alloc: Global, job: &Job) -> Result<Vec<bool>, AllocError>
    ensures count { IfOk result (λ named. length named.items ≡ length job.now.acts) }
    ensures each { IfOk result (λ named. (leaf : ℕ) → leaf < length job.now.acts
        → slice_get named.items leaf ≡ Some (is_source job.now.sources leaf)) }
{
    let count = job.acts().len();
    let mut named = vec![in alloc; false; count]?;
    for leaf in 0..count as u32 {
        mark(&mut named, job.source(leaf));
    }
    Ok(named)
}

/// The leaves of a job, from left to right.
pub(crate) fn written_leaves(alloc: Global, job: &Job) -> Result<Vec<WrittenLeaf>, AllocError>
    ensures { IfOk result (λ written. written.items ≡ written_leaves job.now) }
{
    let named = sources_of(alloc, job)?;
    let acts = job.acts();
    let mut written = Vec::with_capacity(alloc, acts.len())?;
    for leaf in 0..acts.len() as u32 {
        written.push(WrittenLeaf {
            number: leaf,
            named: named[leaf as usize],
            act: acts[leaf as usize],
            source: job.source(leaf),
        })?;
    }
    Ok(written)
}
