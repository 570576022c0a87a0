//! The words of operations and replies, as reports write them.
ghost use Rattle.std.specs.Prelude.{◌≡◌, ◌≤◌, length, map, IfOk, string_bytes};
ghost use Rattle.job_names.specs.Names.{AreSpelled, spelling};
ghost use Rattle.seq_objects.specs.Parts.{number_of};
ghost use Rattle.seq_objects.specs.Words.{op_words, reply_words};

use call_words::push_op;
use job_names::Name;
use seq_objects::{Op, Reply};
use std::alloc::{AllocError, Global};

/// The words of an operation, with the name of its object and its argument.
pub(crate) fn op_words(alloc: Global, names: &[Name], op: Op) -> Result<String, AllocError>
    requires number { number_of op ≤ length names.now }
    requires spelled { AreSpelled (map spelling names.now) }
    ensures { IfOk result (λ words. string_bytes words ≡ op_words (map spelling names.now) op) }
{
    let mut words = String::new(alloc);
    push_op(&mut words, names, op)?;
    Ok(words)
}

/// The words of a reply.
pub(crate) fn reply_words(alloc: Global, reply: Reply) -> Result<String, AllocError>
    ensures { IfOk result (λ words. string_bytes words ≡ reply_words reply) }
{
    format!(in alloc; "{reply}")
}
