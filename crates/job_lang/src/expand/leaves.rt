//! The leaves of a job, while its copies are made.
ghost use Rattle.std.specs.Prelude.{◌≡◌, ◌+◌, ◌<◌, ◌≤◌, [], Some, length, OnOk};
ghost use Rattle.std.specs.Option.{option_map};
ghost use Rattle.limits.specs.declared.TheConstants.{MOST_LEAVES};
ghost use Rattle.job_names.specs.Code.Kept.{IsKept};
ghost use Rattle.job_names.specs.Code.Kept as names;
ghost use Rattle.job_names.specs.Scopes.{job, inside, closed};
ghost use Rattle.job_syntax.specs.Blocks.{name_kind};
ghost use Rattle.job_syntax.specs.Grammar.{leaf_then, nothing, bound};
ghost use Rattle.job_syntax.specs.Views.{argument_word, leaf_of, block_kind_of};
ghost use Rattle.job_lang.specs.Meaning.{number_in, argument_in, act_of};
ghost use Rattle.job_lang.specs.Code.Ranges.{FitsArgument, FitsLeaf};
ghost use Rattle.job_lang.specs.Code.Numbered.{AreListed};
ghost use Rattle.job_lang.specs.Code.Scoped.{Adds, AreKept, scoped_source};

use crate::arguments::leaf_argument;
use crate::expand::objects::{Objects, object_of};
use job_names::{Name, Scopes};
use job_syntax::{Argument, BlockKind, Leaf};
use seq_objects::{Act, Op};
use std::alloc::{AllocError, Global};

/// The leaves made so far: their acts, their sources and the objects that they name. Beside them the lets that the next
/// leaf sees, each with the number of its leaf. A copy of a loop is a block of its own.
#[derive(Drop)]
pub(crate) struct Leaves {
    pub(crate) acts: Vec<Act>,
    pub(crate) sources: Vec<Option<u32>>,
    pub(crate) objects: Objects,
    pub(crate) scopes: Scopes,
}

/// The value of an argument in copy `copy` of its innermost loop. A name stands as 0.
fn number_in(copy: u32, argument: Argument) -> u32
    requires { FitsArgument copy (Some (argument_word argument)) }
    ensures { result ≡ number_in copy (argument_word argument) }
{
    match argument {
        Argument::Number(number) => number,
        Argument::Copies(factor, addend) => factor * copy + addend,
        Argument::Reply(_) => 0,
    }
}

/// The value of the argument of a call in copy `copy`, or 0 where it takes none.
fn argument_in(copy: u32, argument: Option<Argument>) -> u32
    requires { FitsArgument copy (option_map argument_word argument) }
    ensures { result ≡ argument_in copy (option_map argument_word argument) }
{
    match argument {
        Some(argument) => number_in(copy, argument),
        None => 0,
    }
}

/// The act of a leaf in copy `copy`, on the object with the number 0.
fn act_in(copy: u32, leaf: Leaf) -> Act
    requires { FitsLeaf copy (leaf_of leaf) }
    ensures { result ≡ act_of copy (leaf_of leaf) }
{
    match leaf {
        Leaf::Work(argument) => Act::Work(number_in(copy, argument)),
        Leaf::Call { verb, argument, .. } => {
            Act::Call(Op::of(verb, 0, argument_in(copy, argument)))
        }
    }
}

impl Leaves {
    /// No leaves, at the front of a job.
    pub(crate) fn new(alloc: Global) -> Leaves
        ensures acts { result.acts.items ≡ [] }
        ensures sources { result.sources.items ≡ [] }
        ensures objects { AreListed result.objects [] }
        ensures scope { names.view result.scopes ≡ job [] }
        ensures kept { AreKept result }
    {
        Leaves {
            acts: Vec::new(alloc),
            sources: Vec::new(alloc),
            objects: Objects::new(alloc),
            scopes: Scopes::new(alloc),
        }
    }

    /// The source that a leaf has here.
    fn source_of(&self, leaf: Leaf) -> Option<u32>
        requires { IsKept self.now.scopes }
        ensures { result ≡ scoped_source (names.view self.now.scopes) (leaf_of leaf) }
    {
        match leaf_argument(leaf) {
            Some(Argument::Reply(name)) => self.scopes.look(name),
            _ => None,
        }
    }

    /// Adds a leaf in copy `copy`.
    pub(crate) fn add(&mut self, copy: u32, leaf: Leaf) -> Result<(), AllocError>
        requires fits { FitsLeaf copy (leaf_of leaf) }
        requires few { length self.old.acts.items < MOST_LEAVES }
        requires kept { AreKept self.old }
        ensures { OnOk result (Adds copy (leaf_then (leaf_of leaf) nothing) self.old self.new) }
    {
        let source = self.source_of(leaf);
        self.objects.add(self.acts.len(), object_of(leaf))?;
        self.acts.push(act_in(copy, leaf))?;
        self.sources.push(source)?;
        Ok(())
    }

    /// Adds a call with a name for its reply in copy `copy`.
    pub(crate) fn add_let(&mut self, copy: u32, name: Name, call: Leaf) -> Result<(), AllocError>
        requires fits { FitsLeaf copy (leaf_of call) }
        requires few { length self.old.acts.items < MOST_LEAVES }
        requires kept { AreKept self.old }
        ensures { OnOk result (Adds copy (leaf_then (bound name (leaf_of call)) nothing) self.old self.new) }
    {
        let number = self.acts.len() as u32;
        self.add(copy, call)?;
        self.scopes.bind(name, number)?;
        Ok(())
    }

    /// Opens a block.
    pub(crate) fn open(&mut self, kind: BlockKind) -> Result<(), AllocError>
        requires { AreKept self.old }
        ensures acts { self.new.acts ≡ self.old.acts }
        ensures sources { self.new.sources ≡ self.old.sources }
        ensures objects { self.new.objects ≡ self.old.objects }
        ensures scope { OnOk result
            (names.view self.new.scopes ≡ inside (names.view self.old.scopes) (name_kind (block_kind_of kind)) []) }
        ensures kept { OnOk result (AreKept self.new) }
    {
        self.scopes.open(kind.name_kind())?;
        Ok(())
    }

    /// Closes the innermost block.
    pub(crate) fn close(&mut self)
        requires { AreKept self.old }
        ensures acts { self.new.acts ≡ self.old.acts }
        ensures sources { self.new.sources ≡ self.old.sources }
        ensures objects { self.new.objects ≡ self.old.objects }
        ensures scope { names.view self.new.scopes ≡ closed (names.view self.old.scopes) }
        ensures kept { AreKept self.new }
    {
        self.scopes.close();
    }
}
