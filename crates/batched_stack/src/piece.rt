//! A piece of a batch, its result, and what the stack keeps meanwhile.
ghost use Rattle.std.specs.Prelude.{◌+◌, ◌<◌, ◌≤◌, length};

use crate::stripe::Stripe;

/// One stripe, with its part of a batch's calls.
#[derive(Drop)]
pub struct Piece {
    /// The stripe's number, from 0.
    pub number: usize,
    pub stripe: Stripe,
    /// The items pushed to this stripe, in call order.
    pub pushes: Vec<u32>,
    /// How many of the batch's pops take an item of this stripe.
    pub pops: usize,
    ghost low: { number < 16 },
    ghost few: { pops ≤ length stripe.items.items + length pushes.items },
}

/// A stripe after its piece, and the items popped from it or from its pushes, the newest first.
#[derive(Drop)]
pub struct Served {
    pub number: usize,
    pub stripe: Stripe,
    pub popped: Vec<u32>,
    ghost low: { number < 16 },
}

/// What a stack keeps while its pieces are served: the stripes that no piece has, the number of items before the batch,
/// and the batch's numbers of pushes and pops. `rooms` and `popped` are memory for the end to reuse; their contents are
/// stale.
#[derive(Drop)]
pub struct Rest {
    pub stripes: Vec<Stripe>,
    pub rooms: Vec<u64>,
    pub popped: Vec<Vec<u32>>,
    pub count: usize,
    pub pushes: usize,
    pub pops: usize,
}
