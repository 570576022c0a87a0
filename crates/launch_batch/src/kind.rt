//! The four kinds of structures: which operations are their own, and their pieces among those of a batch.
ghost use Rattle.std.specs.Prelude.{◌≡◌, ℕ, IfOk};
ghost use Rattle.seq_objects.specs.Objects.{opening};
ghost use Rattle.object_rows.specs.declared.members.Members.{Members as MembersOf};
ghost use Rattle.seq_objects.specs.declared.kind.Kind.{Kind as ObjectKind};
ghost use Rattle.seq_objects.specs.declared.kind.Kind.TheVariants as objects;
ghost use Rattle.seq_objects.specs.Batches.{kind_of, same_kind};
ghost use Rattle.launch_batch.specs.declared.piece.PieceIn.{PieceIn as Input};
ghost use Rattle.launch_batch.specs.declared.piece.PieceIn.TheVariants as piece;

use crate::piece::PieceIn;
use batched_counter::Counter;
use batched_pq::Queue;
use batched_stack::Stack;
use batched_tree::TreeSet;
use object_rows::{Fresh, Members};
use seq_objects::{Batched, Op};
use std::alloc::{AllocError, Global};

/// A kind of structure: which operations are its own, and how its pieces are pieces of a batch.
pub(crate) trait Kind: Batched {
    /// The kind of its objects.
    ghost kind: { ObjectKind };

    /// `at`, for contracts.
    ghost at: { ℕ → MembersOf Self.In → Input };

    /// A structure with the opening content.
    fn fresh(alloc: Global) -> Result<Self, AllocError>
        ensures { IfOk result (λ structure. Self.content structure ≡ opening) };

    /// Whether the operation is its own.
    fn has(op: Op) -> bool
        ensures { result ≡ same_kind kind (kind_of op) };

    /// Its pieces at this place as a piece of the batch.
    fn at(place: u32, ins: Members<Self::In>) -> PieceIn
        ensures { result ≡ at place ins };
}

/// Makes a structure of any kind.
pub(crate) struct Maker;

impl<T: Kind> Fresh<T> for Maker {
    fn fresh(alloc: Global) -> Result<T, AllocError> {
        T::fresh(alloc)
    }
}

impl Kind for Counter {
    ghost kind = { objects.Counter };

    ghost at = { piece.Counter };

    fn fresh(alloc: Global) -> Result<Counter, AllocError> {
        Counter::new(alloc)
    }

    fn has(op: Op) -> bool {
        matches!(op, Op::CounterAdd(..))
    }

    fn at(place: u32, ins: Members<Self::In>) -> PieceIn
        ensures { result ≡ piece.Counter place ins }
    {
        PieceIn::Counter(place, ins)
    }
}

impl Kind for Stack {
    ghost kind = { objects.Stack };

    ghost at = { piece.Stack };

    fn fresh(alloc: Global) -> Result<Stack, AllocError> {
        Stack::new(alloc)
    }

    fn has(op: Op) -> bool {
        matches!(op, Op::Push(..) | Op::Pop(_))
    }

    fn at(place: u32, ins: Members<Self::In>) -> PieceIn
        ensures { result ≡ piece.Stack place ins }
    {
        PieceIn::Stack(place, ins)
    }
}

impl Kind for TreeSet {
    ghost kind = { objects.Tree };

    ghost at = { piece.Tree };

    fn fresh(alloc: Global) -> Result<TreeSet, AllocError> {
        TreeSet::new(alloc)
    }

    fn has(op: Op) -> bool {
        matches!(
            op,
            Op::TreeInsert(..) | Op::TreeRemove(..) | Op::TreeFind(..) | Op::TreeNext(..)
        )
    }

    fn at(place: u32, ins: Members<Self::In>) -> PieceIn
        ensures { result ≡ piece.Tree place ins }
    {
        PieceIn::Tree(place, ins)
    }
}

impl Kind for Queue {
    ghost kind = { objects.Queue };

    ghost at = { piece.Queue };

    fn fresh(alloc: Global) -> Result<Queue, AllocError> {
        Queue::new(alloc)
    }

    fn has(op: Op) -> bool {
        matches!(op, Op::PqInsert(..) | Op::PqTake(_))
    }

    fn at(place: u32, ins: Members<Self::In>) -> PieceIn
        ensures { result ≡ piece.Queue place ins }
    {
        PieceIn::Queue(place, ins)
    }
}
