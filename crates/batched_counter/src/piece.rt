//! A piece of a batch, its result, and what the counter keeps meanwhile.
ghost use Rattle.std.specs.Prelude.{◌<◌, ◌^◌};
ghost use Rattle.batched_counter.specs.Sums.{total};

use arrayvec::ArrayVec;

/// The addends of at most 2 consecutive calls, held in place. They are as wide as their sums, so that the prefix sums
/// can overwrite them.
#[derive(Drop)]
pub struct Piece {
    pub addends: ArrayVec<u64, 2>,
    ghost fits: { total addends.items < 2 ^ 64 },
}

/// The prefix sums of a piece's addends, each including its own addend, and their total.
#[derive(Drop)]
pub struct Served {
    pub prefixes: ArrayVec<u64, 2>,
    pub total: u64,
}

/// What a counter keeps while the pieces of a batch are summed: the number before the batch and the number of calls.
/// `calls` only sets the capacity for the replies.
#[derive(Drop)]
pub struct Rest {
    pub number: u64,
    pub calls: usize,
}
