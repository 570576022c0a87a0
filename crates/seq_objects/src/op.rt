//! The operations on the shared objects.
ghost use Rattle.std.specs.Prelude.{◌≡◌, ◌↔◌, IsTrue};
ghost use Rattle.seq_objects.specs.Parts.{argument_of, has_argument, kind_of, number_of, op_of, verb_of, with_argument, with_number};
ghost use Rattle.seq_objects.specs.Code.Inserting.{InsertsNothing};

use crate::kind::Kind;
use crate::verb::Verb;

/// An operation on one of the shared objects: the number of the object among those of its kind, and an argument.
#[derive(Clone, Copy, PartialEq, Eq)]
pub enum Op {
    /// Adds a number to a counter, and replies with the new sum.
    CounterAdd(u32, u32),
    /// Pushes a number on a stack.
    Push(u32, u32),
    /// Pops the top of a stack, and replies with it, or `Empty` if there is none.
    Pop(u32),
    /// Inserts a key into a tree, and replies whether it was new.
    TreeInsert(u32, u32),
    /// Removes a key from a tree, and replies whether it was there.
    TreeRemove(u32, u32),
    /// Replies whether a tree has a key.
    TreeFind(u32, u32),
    /// Replies with the least key of a tree that is strictly greater than a number, or `Empty` if there is none.
    TreeNext(u32, u32),
    /// Inserts a number into a priority queue, which may hold several copies of it.
    PqInsert(u32, u32),
    /// Removes one copy of a queue's least number, and replies with it, or `Empty` if there is none.
    PqTake(u32),
}

impl Op {
    /// The operation with these parts. A verb without an argument leaves it out.
    ///
    /// Memory: none.
    pub fn of(verb: Verb, number: u32, argument: u32) -> Op
        ensures { result ≡ op_of verb number argument }
    {
        match verb {
            Verb::CounterAdd => Op::CounterAdd(number, argument),
            Verb::Push => Op::Push(number, argument),
            Verb::Pop => Op::Pop(number),
            Verb::TreeInsert => Op::TreeInsert(number, argument),
            Verb::TreeRemove => Op::TreeRemove(number, argument),
            Verb::TreeFind => Op::TreeFind(number, argument),
            Verb::TreeNext => Op::TreeNext(number, argument),
            Verb::PqInsert => Op::PqInsert(number, argument),
            Verb::PqTake => Op::PqTake(number),
        }
    }

    /// What it does.
    ///
    /// Memory: none.
    pub fn verb(self) -> Verb
        ensures { result ≡ verb_of self }
    {
        match self {
            Op::CounterAdd(..) => Verb::CounterAdd,
            Op::Push(..) => Verb::Push,
            Op::Pop(_) => Verb::Pop,
            Op::TreeInsert(..) => Verb::TreeInsert,
            Op::TreeRemove(..) => Verb::TreeRemove,
            Op::TreeFind(..) => Verb::TreeFind,
            Op::TreeNext(..) => Verb::TreeNext,
            Op::PqInsert(..) => Verb::PqInsert,
            Op::PqTake(_) => Verb::PqTake,
        }
    }

    /// The number of its object among those of its kind.
    ///
    /// Memory: none.
    pub fn number(self) -> u32
        ensures { result ≡ number_of self }
    {
        match self {
            Op::CounterAdd(number, _)
            | Op::Push(number, _)
            | Op::Pop(number)
            | Op::TreeInsert(number, _)
            | Op::TreeRemove(number, _)
            | Op::TreeFind(number, _)
            | Op::TreeNext(number, _)
            | Op::PqInsert(number, _)
            | Op::PqTake(number) => number,
        }
    }

    /// The number that it carries, or 0 if it carries none.
    ///
    /// Memory: none.
    pub fn argument(self) -> u32
        ensures { result ≡ argument_of self }
    {
        match self {
            Op::CounterAdd(_, argument)
            | Op::Push(_, argument)
            | Op::TreeInsert(_, argument)
            | Op::TreeRemove(_, argument)
            | Op::TreeFind(_, argument)
            | Op::TreeNext(_, argument)
            | Op::PqInsert(_, argument) => argument,
            Op::Pop(_) | Op::PqTake(_) => 0,
        }
    }

    /// The kind of its object.
    ///
    /// Memory: none.
    pub fn kind(self) -> Kind
        ensures { result ≡ kind_of self }
    {
        self.verb().kind()
    }

    /// Whether it takes an argument.
    ///
    /// Memory: none.
    pub fn takes_argument(self) -> bool
        ensures { result ≡ has_argument self }
    {
        self.verb().takes_argument()
    }

    /// The same on the object with this number of its kind.
    ///
    /// Memory: none.
    pub fn with_number(self, number: u32) -> Op
        ensures { result ≡ with_number self number }
    {
        Op::of(self.verb(), number, self.argument())
    }

    /// The same with this argument. An operation without an argument stays.
    ///
    /// Memory: none.
    pub fn with_argument(self, argument: u32) -> Op
        ensures { result ≡ with_argument self argument }
    {
        Op::of(self.verb(), self.number(), argument)
    }

    /// Whether objects at the opening stay as they are.
    pub(crate) fn inserts_nothing(self) -> bool
        ensures { IsTrue result ↔ InsertsNothing self }
    {
        !matches!(
            self,
            Op::CounterAdd(..) | Op::Push(..) | Op::TreeInsert(..) | Op::PqInsert(..)
        )
    }
}
