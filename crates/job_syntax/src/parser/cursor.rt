//! A cursor over the words of a text that are left to read.
ghost use Rattle.std.specs.Prelude.{◌≡◌, ◌≤◌, [], ◌∷◌, Ok, Err, MatchOption, MatchResult, length};
ghost use Rattle.limits.specs.declared.TheConstants.{MOST_JOB_BYTES};
ghost use Rattle.job_syntax.specs.Words.{words_on_lines};

use crate::fault::JobFault;
use crate::item::Argument;
use crate::lexer::scanner::Scanner;
use crate::lexer::word::{Word, WordOnLine};
use crate::lexer::word_of::word_of;
use crate::parser::blocks::BlockStack;
use crate::parser::call::{Object, Operator, object_of};
use job_names::Name;
use limits::MOST_OPEN_BLOCKS;
use std::marker::Model;

/// The words of a text that are left to read, each made of its token as it is taken. Contracts see their list. All
/// methods but `next` take the word that must come next, or answer the fault that they find. At the end of the words
/// that is a `Grammar` fault on line `last`.
#[derive(Drop)]
pub struct Cursor<'a> {
    scanner: Scanner<'a>,
}

impl<'a> Model for Cursor<'a> {
    ghost use Rattle.job_syntax.specs.declared.lexer.word.WordOnLine.{WordOnLine};
    ghost use Rattle.std.specs.Prelude.{List};

    ghost Value = { List WordOnLine };

    ghost use Rattle.job_syntax.specs.Code.Scanners.{words_left};

    ghost view = { λ cursor. words_left cursor.scanner };
}

impl<'a> Cursor<'a> {
    /// A cursor before the first word of a text.
    pub fn new(text: &'a [u8]) -> Cursor<'a>
        requires { length text.now ≤ MOST_JOB_BYTES }
        ensures { result ≡ words_on_lines text.now }
    {
        Cursor {
            scanner: Scanner::new(text),
        }
    }

    /// Takes the next word, if one is left.
    pub fn next(&mut self) -> Option<WordOnLine>
        ensures { MatchOption result ((self.old ≡ []) × (self.new ≡ []))
            (λ token. self.old ≡ token ∷ self.new) }
    {
        let token = self.scanner.next_token()?;
        Some(WordOnLine {
            word: word_of(token.text),
            line: token.line,
        })
    }
}

impl<'a> Cursor<'a> {
    ghost use Rattle.job_syntax.specs.Grammar.{is_number};
    ghost use Rattle.job_syntax.specs.Code.Cursors.{word_at, argument_at, name_at, equals_at, object_at, brace_at};
    ghost use Rattle.job_syntax.specs.Code.OpenBlocks.{ShowsLets, view};
    ghost use Rattle.job_syntax.specs.Views.{argument_word};
    ghost use Rattle.job_syntax.specs.declared.lexer.word.Word.TheVariants.{Number};

    /// Takes the argument of an operation. Inside a loop it may depend on the copy, and that of a call may be a name,
    /// of which a let must be shown.
    pub(crate) fn argument(
        &mut self,
        last: u32,
        op: Operator,
        stack: &BlockStack,
    ) -> Result<Argument, JobFault>
        requires { ShowsLets stack.now }
        ensures gives { MatchResult result
            (λ argument. argument_at last (view stack.now).blocks (view stack.now).items op self.old
            ≡ Ok (argument_word argument, self.new))
            (λ found. argument_at last (view stack.now).blocks (view stack.now).items op self.old
            ≡ Err found) }
        ensures shorter { length self.new ≤ length self.old }
    {
        let Some(token) = self.next() else {
            return Err(JobFault::Grammar { line: last });
        };
        match token.word {
            Word::Number(Some(number)) => Ok(Argument::Number(number)),
            Word::Number(None) => Err(JobFault::Number { line: token.line }),
            Word::Copies(Some((factor, addend))) if stack.is_looped() => {
                Ok(Argument::Copies(factor, addend))
            }
            Word::Copies(None) if stack.is_looped() => Err(JobFault::Number { line: token.line }),
            Word::Named(_) if matches!(op, Operator::Work) => {
                Err(JobFault::Grammar { line: token.line })
            }
            Word::Named(name) if stack.shows(name) => Ok(Argument::Reply(name)),
            Word::Named(_) => Err(JobFault::Name { line: token.line }),
            _ => Err(JobFault::Grammar { line: token.line }),
        }
    }

    /// Takes the name of a `let`.
    pub(crate) fn name(&mut self, last: u32) -> Result<Name, JobFault>
        ensures gives { MatchResult result
            (λ name. name_at last self.old ≡ Ok (name, self.new))
            (λ found. name_at last self.old ≡ Err found) }
        ensures shorter { length self.new ≤ length self.old }
    {
        let Some(token) = self.next() else {
            return Err(JobFault::Grammar { line: last });
        };
        match token.word {
            Word::Named(name) => Ok(name),
            _ => Err(JobFault::Grammar { line: token.line }),
        }
    }

    /// Takes a `=`.
    pub(crate) fn equals(&mut self, last: u32) -> Result<(), JobFault>
        ensures gives { MatchResult result
            (λ _. equals_at last self.old ≡ Ok self.new)
            (λ found. equals_at last self.old ≡ Err found) }
        ensures shorter { length self.new ≤ length self.old }
    {
        let Some(token) = self.next() else {
            return Err(JobFault::Grammar { line: last });
        };
        match token.word {
            Word::Equals => Ok(()),
            _ => Err(JobFault::Grammar { line: token.line }),
        }
    }

    /// Takes the first word of a call, which names its object.
    pub(crate) fn object(&mut self, last: u32) -> Result<Object, JobFault>
        ensures gives { MatchResult result
            (λ object. object_at last self.old ≡ Ok (object, self.new))
            (λ found. object_at last self.old ≡ Err found) }
        ensures shorter { length self.new ≤ length self.old }
    {
        let Some(token) = self.next() else {
            return Err(JobFault::Grammar { line: last });
        };
        match object_of(token.word) {
            Some(object) => Ok(object),
            None => Err(JobFault::Grammar { line: token.line }),
        }
    }

    /// Takes a number.
    pub(crate) fn number(&mut self, last: u32) -> Result<u32, JobFault>
        ensures gives { MatchResult result
            (λ number. word_at last is_number self.old ≡ Ok (Number (Some number), self.new))
            (λ found. word_at last is_number self.old ≡ Err found) }
        ensures shorter { length self.new ≤ length self.old }
    {
        let Some(token) = self.next() else {
            return Err(JobFault::Grammar { line: last });
        };
        match token.word {
            Word::Number(Some(number)) => Ok(number),
            Word::Number(None) => Err(JobFault::Number { line: token.line }),
            _ => Err(JobFault::Grammar { line: token.line }),
        }
    }

    /// Takes a `{`, where `open_now` blocks are open.
    pub(crate) fn brace(&mut self, last: u32, open_now: usize) -> Result<(), JobFault>
        ensures gives { MatchResult result
            (λ _. brace_at last open_now self.old ≡ Ok self.new)
            (λ found. brace_at last open_now self.old ≡ Err found) }
        ensures shorter { length self.new ≤ length self.old }
    {
        let Some(token) = self.next() else {
            return Err(JobFault::Grammar { line: last });
        };
        match token.word {
            Word::Open if open_now >= MOST_OPEN_BLOCKS as usize => Err(JobFault::Nesting {
                line: token.line,
            }),
            Word::Open => Ok(()),
            _ => Err(JobFault::Grammar { line: token.line }),
        }
    }
}
