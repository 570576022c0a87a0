//! The calls of the shared objects, as the language spells them.
ghost use Rattle.std.specs.Prelude.{◌≡◌, ◌≤◌, OnOk, length};
ghost use Rattle.job_syntax.specs.Code.Machine.{at, an_argument, a_call, object_of, verb_behind};
ghost use Rattle.job_syntax.specs.Code.OpenBlocks.{ShowsLets, view};
ghost use Rattle.job_syntax.specs.Code.Steps.{Steps};

use crate::error::JobErr;
use crate::fault::JobFault;
use crate::item::{Argument, Leaf};
use crate::lexer::word::Word;
use crate::parser::blocks::BlockStack;
use crate::parser::cursor::Cursor;
use job_names::Name;
use seq_objects::{Kind, Verb};

/// An object, as the first word of a call names it: its kind, and its name, if it has one.
#[derive(Clone, Copy)]
pub(crate) struct Object {
    pub(crate) kind: Kind,
    pub(crate) name: Option<Name>,
}

/// What stands before an argument: the word of a piece of work, or the words of a call.
#[derive(Clone, Copy)]
pub(crate) enum Operator {
    Work,
    Call(Verb, Option<Name>),
}

impl Operator {
    ghost use Rattle.job_syntax.specs.Code.Machine.{with_operand};
    ghost use Rattle.job_syntax.specs.Views.{argument_word, leaf_of};

    /// The leaf with this argument.
    fn with_operand(self, argument: Argument) -> Leaf
        ensures { leaf_of result ≡ with_operand self (argument_word argument) }
    {
        match self {
            Operator::Work => Leaf::Work(argument),
            Operator::Call(verb, object) => Leaf::Call {
                verb,
                object,
                argument: Some(argument),
            },
        }
    }
}

/// The object that a word names, if it names one.
pub(crate) fn object_of(word: Word) -> Option<Object>
    ensures { result ≡ object_of word }
{
    match word {
        Word::Object(kind, name) => Some(Object { kind, name }),
        _ => None,
    }
}

/// The verb that a word spells behind an object of this kind, if it spells one.
fn verb_behind(kind: Kind, word: Word) -> Option<Verb>
    ensures { result ≡ verb_behind kind word }
{
    match word {
        Word::Verb(word) => Verb::by_word(kind, word),
        _ => None,
    }
}

/// Reads the argument of an operation, and adds the leaf. `given` is the name of the `let` before it, if there is one.
pub(crate) fn read_argument(
    stack: &mut BlockStack,
    given: Option<Name>,
    op: Operator,
    words: &mut Cursor,
    last: u32,
) -> Result<(), JobErr>
    requires { ShowsLets stack.old }
    ensures steps { Steps last
        (at (view stack.old).blocks (view stack.old).items (an_argument given op)) words.old
        (view stack.new) words.new result }
    ensures shows { OnOk result (ShowsLets stack.new) }
    ensures shorter { length words.new ≤ length words.old }
{
    let argument = words.argument(last, op, stack)?;
    stack.add(given, op.with_operand(argument))?;
    Ok(())
}

/// Reads the rest of a call behind its object, and adds the leaf.
pub(crate) fn read_call(
    stack: &mut BlockStack,
    given: Option<Name>,
    object: Object,
    words: &mut Cursor,
    last: u32,
) -> Result<(), JobErr>
    requires { ShowsLets stack.old }
    ensures steps { Steps last
        (at (view stack.old).blocks (view stack.old).items (a_call given object)) words.old
        (view stack.new) words.new result }
    ensures shows { OnOk result (ShowsLets stack.new) }
    ensures shorter { length words.new ≤ length words.old }
{
    let Some(token) = words.next() else {
        return Err(JobErr::Bad(JobFault::Grammar { line: last }));
    };
    let Some(verb) = verb_behind(object.kind, token.word) else {
        return Err(JobErr::Bad(JobFault::Grammar { line: token.line }));
    };
    if verb.takes_argument() {
        return read_argument(stack, given, Operator::Call(verb, object.name), words, last);
    }
    let call = Leaf::Call {
        verb,
        object: object.name,
        argument: None,
    };
    stack.add(given, call)?;
    Ok(())
}
