//! The items of a text, before its loops are expanded into copies.

use job_names::{Kind, Name};
use seq_objects::Verb;

/// The argument of a leaf.
#[derive(Clone, Copy)]
pub enum Argument {
    Number(u32),
    /// The number of the copy times a factor, plus an addend.
    Copies(u32, u32),
    /// The reply of the call that a `let` gave this name.
    Reply(Name),
}

/// A piece of work, or a call by its verb, with the name of its object, if the object has one, and with an argument
/// where the verb takes one.
#[derive(Clone, Copy)]
pub enum Leaf {
    Work(Argument),
    Call {
        verb: Verb,
        object: Option<Name>,
        argument: Option<Argument>,
    },
}

/// The head of a block: its word, and for a loop the number of copies.
#[derive(Clone, Copy)]
pub enum BlockKind {
    Seq,
    Par,
    For(u32),
    Pfor(u32),
}

impl BlockKind {
    ghost use Rattle.std.specs.Prelude.{◌≡◌};
    ghost use Rattle.job_syntax.specs.Blocks.{copies_of, name_kind};
    ghost use Rattle.job_syntax.specs.Grammar.{is_loop};
    ghost use Rattle.job_syntax.specs.Views.{block_kind_of};

    /// How many times the block runs its items.
    pub fn copies(self) -> u32
        ensures { result ≡ copies_of (block_kind_of self) }
    {
        match self {
            BlockKind::Seq | BlockKind::Par => 1,
            BlockKind::For(copies) | BlockKind::Pfor(copies) => copies,
        }
    }

    /// Whether the block is a loop.
    pub fn is_loop(self) -> bool
        ensures { result ≡ is_loop (block_kind_of self) }
    {
        matches!(self, BlockKind::For(_) | BlockKind::Pfor(_))
    }

    /// How the block treats the names of its lets.
    pub fn name_kind(self) -> Kind
        ensures { result ≡ name_kind (block_kind_of self) }
    {
        match self {
            BlockKind::Seq => Kind::Series,
            BlockKind::Par => Kind::Par,
            BlockKind::For(_) | BlockKind::Pfor(_) => Kind::Loop,
        }
    }
}

/// A leaf, a call with a name for its reply, or a block and its items. Blocks nest no deeper than
/// `limits::MOST_OPEN_BLOCKS`.
#[derive(Drop)]
pub enum Item {
    Leaf(Leaf),
    Let(Name, Leaf),
    Block(BlockKind, Vec<Item>),
}
