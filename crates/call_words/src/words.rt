//! Appending the words of calls to a text.
ghost use Rattle.std.specs.Prelude.{◌≡◌, ◌++◌, ◌≤◌, OnOk, length, map, string_bytes};
ghost use Rattle.job_names.specs.Names.{AreSpelled, spelling};
ghost use Rattle.seq_objects.specs.Parts.{number_of};
ghost use Rattle.seq_objects.specs.Words.{argument_words, call_words, name_words, op_words, verb_words};

use itoa::Buffer;
use job_names::Name;
use seq_objects::Op;
use std::alloc::AllocError;

/// Appends a colon and the name of the object with this number, if it has one.
fn push_name(text: &mut String, names: &[Name], number: u32) -> Result<(), AllocError>
    requires number { number ≤ length names.now }
    requires spelled { AreSpelled (map (λ name. spelling name) names.now) }
    ensures { OnOk result
        (string_bytes text.new
        ≡ string_bytes text.old ++ name_words (map (λ name. spelling name) names.now) number) }
{
    if number == 0 {
        return Ok(());
    }
    text.push_str(":")?;
    text.push_str(names[number as usize - 1].as_str())
}

/// Appends the word of the verb between blanks, the last one only where an argument follows.
fn push_verb(text: &mut String, op: Op) -> Result<(), AllocError>
    ensures { OnOk result (string_bytes text.new ≡ string_bytes text.old ++ verb_words op) }
{
    text.push_str(" ")?;
    text.push_str(op.verb().word().text())?;
    if op.takes_argument() {
        text.push_str(" ")?;
    }
    Ok(())
}

/// Appends a call without its argument: the word of its kind, a colon and the name of its object if that has one, and
/// the verb.
pub fn push_call(text: &mut String, names: &[Name], op: Op) -> Result<(), AllocError>
    requires number { number_of op ≤ length names.now }
    requires spelled { AreSpelled (map (λ name. spelling name) names.now) }
    ensures { OnOk result
        (string_bytes text.new
        ≡ string_bytes text.old ++ call_words (map (λ name. spelling name) names.now) op) }
{
    text.push_str(op.kind().text())?;
    push_name(text, names, op.number())?;
    push_verb(text, op)
}

/// Appends the argument of a call, if it takes one.
pub fn push_argument(text: &mut String, op: Op) -> Result<(), AllocError>
    ensures { OnOk result (string_bytes text.new ≡ string_bytes text.old ++ argument_words op) }
{
    if op.takes_argument() {
        text.push_str(Buffer::new().format(op.argument()))?;
    }
    Ok(())
}

/// Appends a call with the name of its object and its argument.
pub fn push_op(text: &mut String, names: &[Name], op: Op) -> Result<(), AllocError>
    requires number { number_of op ≤ length names.now }
    requires spelled { AreSpelled (map (λ name. spelling name) names.now) }
    ensures { OnOk result
        (string_bytes text.new ≡ string_bytes text.old ++ op_words (map (λ name. spelling name) names.now) op) }
{
    push_call(text, names, op)?;
    push_argument(text, op)
}
