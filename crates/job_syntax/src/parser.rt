//! The parser: one pass over the words of a text, with a stack of open blocks.
ghost use Rattle.std.specs.Prelude.{◌≡◌, ◌≤◌, ◌∷◌, Err, IfOk, OnOk, length};
ghost use Rattle.limits.specs.declared.TheConstants.{MOST_JOB_BYTES};
ghost use Rattle.job_syntax.specs.Text.{last_line};
ghost use Rattle.job_syntax.specs.Words.{words_on_lines};
ghost use Rattle.job_syntax.specs.Faults.{IsReadingFault};
ghost use Rattle.job_syntax.specs.ItemsOf.{AreItemsOf};
ghost use Rattle.job_syntax.specs.Code.Machine.{at, start, a_let_name, a_brace, read_from};
ghost use Rattle.job_syntax.specs.Code.OpenBlocks.{ShowsLets, view};
ghost use Rattle.job_syntax.specs.Code.Steps.{Steps, Gives};
ghost use Rattle.job_syntax.specs.Views.{items_of, block_kind_of};
ghost use Rattle.job_syntax.specs.declared.error.JobErr.TheVariants.{Bad};

mod blocks;
mod call;
pub(crate) mod cursor;

use crate::error::JobErr;
use crate::fault::JobFault;
use crate::item::{BlockKind, Item};
use crate::lexer::text::last_line;
use crate::lexer::word::{Word, WordOnLine};
use crate::parser::blocks::BlockStack;
use crate::parser::call::{Object, Operator, read_argument, read_call};
use crate::parser::cursor::Cursor;
use std::alloc::Global;

/// Reads what follows a `let`, and adds its leaf.
fn read_let(stack: &mut BlockStack, words: &mut Cursor, last: u32) -> Result<(), JobErr>
    requires { ShowsLets stack.old }
    ensures steps { Steps last
        (at (view stack.old).blocks (view stack.old).items a_let_name) words.old
        (view stack.new) words.new result }
    ensures shows { OnOk result (ShowsLets stack.new) }
    ensures shorter { length words.new ≤ length words.old }
{
    let name = words.name(last)?;
    words.equals(last)?;
    let object = words.object(last)?;
    read_call(stack, Some(name), object, words, last)
}

/// Reads the `{` of a block, and opens the block.
fn read_brace(
    stack: &mut BlockStack,
    kind: BlockKind,
    words: &mut Cursor,
    last: u32,
) -> Result<(), JobErr>
    requires { ShowsLets stack.old }
    ensures steps { Steps last
        (at (view stack.old).blocks (view stack.old).items (a_brace (block_kind_of kind))) words.old
        (view stack.new) words.new result }
    ensures shows { OnOk result (ShowsLets stack.new) }
    ensures shorter { length words.new ≤ length words.old }
{
    words.brace(last, stack.depth())?;
    stack.open(kind)?;
    Ok(())
}

/// Reads what this word begins: a whole leaf, a block up to its `{`, or the end of the innermost block.
fn read_step(
    stack: &mut BlockStack,
    token: WordOnLine,
    words: &mut Cursor,
    last: u32,
) -> Result<(), JobErr>
    requires { ShowsLets stack.old }
    ensures steps { Steps last (view stack.old) (token ∷ words.old) (view stack.new) words.new result }
    ensures shows { OnOk result (ShowsLets stack.new) }
    ensures shorter { length words.new ≤ length words.old }
{
    match token.word {
        Word::Work => read_argument(stack, None, Operator::Work, words, last),
        Word::Object(kind, name) => read_call(stack, None, Object { kind, name }, words, last),
        Word::Let => read_let(stack, words, last),
        Word::Close if stack.is_outside() => {
            Err(JobErr::Bad(JobFault::Grammar { line: token.line }))
        }
        Word::Close => {
            stack.close()?;
            Ok(())
        }
        Word::Seq => read_brace(stack, BlockKind::Seq, words, last),
        Word::Par => read_brace(stack, BlockKind::Par, words, last),
        Word::For => {
            let copies = words.number(last)?;
            read_brace(stack, BlockKind::For(copies), words, last)
        }
        Word::Pfor => {
            let copies = words.number(last)?;
            read_brace(stack, BlockKind::Pfor(copies), words, last)
        }
        _ => Err(JobErr::Bad(JobFault::Grammar { line: token.line })),
    }
}

/// Reads all words.
fn read_all(alloc: Global, mut words: Cursor, last: u32) -> Result<Vec<Item>, JobErr>
    ensures { Gives (λ items. items_of items.items) result (read_from last start words.entry) }
{
    let mut stack = BlockStack::new(alloc);
    while let Some(token) = words.next() {
        read_step(&mut stack, token, &mut words, last)?;
    }
    if stack.is_outside() {
        Ok(stack.into_items())
    } else {
        Err(JobErr::Bad(JobFault::Grammar { line: last }))
    }
}

/// The items that the words of a text write, or their first fault. A text that ends too early has a `Grammar` fault on
/// its last line.
pub fn read_items(alloc: Global, text: &[u8]) -> Result<Vec<Item>, JobErr>
    requires { length text.now ≤ MOST_JOB_BYTES }
    ensures items { IfOk result (λ items. AreItemsOf (words_on_lines text.now) (items_of items.items)) }
    ensures fault { (fault : JobFault) → result ≡ Err (Bad fault)
        → IsReadingFault (last_line text.now) (words_on_lines text.now) fault }
{
    read_all(alloc, Cursor::new(text), last_line(text))
}
