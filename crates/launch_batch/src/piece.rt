//! The pieces of a batch, and their outs.
ghost use Rattle.std.specs.Prelude.{◌≡◌, IfOk};
ghost use Rattle.launch_batch.specs.Pieces.{Meets, place_of};

use batched_counter::{Counter, Piece as CounterPiece, Served as CounterServed};
use batched_pq::{Piece as QueuePiece, Queue, Served as QueueServed};
use batched_stack::{Piece as StackPiece, Served as StackServed, Stack};
use batched_tree::{Piece as TreePiece, Served as TreeServed, TreeSet};
use object_rows::Members;
use object_rows::run::run_all;
use std::alloc::{AllocError, Global};

/// The first place of the counters' row.
pub const FIRST_OF_COUNTERS: u32 = 0;

/// The first place of the stacks' row.
pub const FIRST_OF_STACKS: u32 = 16;

/// The first place of the trees' row.
pub const FIRST_OF_TREES: u32 = 32;

/// The first place of the queues' row, which ends at `limits::PLACES`.
pub const FIRST_OF_QUEUES: u32 = 48;

/// A piece of a batch: its place, and the inputs that structures of one kind gave it, in the order of their numbers. It
/// owns all its data and is `Send`.
#[derive(Drop)]
pub enum PieceIn {
    Counter(u32, Members<CounterPiece>),
    Stack(u32, Members<StackPiece>),
    Tree(u32, Members<TreePiece>),
    Queue(u32, Members<QueuePiece>),
}

/// The outputs of a piece, one for each of its inputs. It is `Send`.
#[derive(Drop)]
pub enum PieceOut {
    Counter(Members<CounterServed>),
    Stack(Members<StackServed>),
    Tree(Members<TreeServed>),
    Queue(Members<QueueServed>),
}

impl PieceIn {
    /// The place of the piece, in the row of its kind.
    ///
    /// Memory: none.
    pub fn place(&self) -> u32
        ensures { result ≡ place_of self.now }
    {
        match self {
            PieceIn::Counter(place, _) => *place,
            PieceIn::Stack(place, _) => *place,
            PieceIn::Tree(place, _) => *place,
            PieceIn::Queue(place, _) => *place,
        }
    }
}

/// Runs one piece, one input after another. Any thread may do so.
pub fn run_piece(alloc: Global, input: PieceIn) -> Result<PieceOut, AllocError>
    ensures { IfOk result (λ out. Meets input out) }
{
    let out = match input {
        PieceIn::Counter(_, ins) => PieceOut::Counter(run_all::<Counter>(alloc, ins)?),
        PieceIn::Stack(_, ins) => PieceOut::Stack(run_all::<Stack>(alloc, ins)?),
        PieceIn::Tree(_, ins) => PieceOut::Tree(run_all::<TreeSet>(alloc, ins)?),
        PieceIn::Queue(_, ins) => PieceOut::Queue(run_all::<Queue>(alloc, ins)?),
    };
    Ok(out)
}
