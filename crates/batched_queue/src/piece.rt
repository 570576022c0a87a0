//! A piece of a batch, which has one stripe, and its out.
ghost use Rattle.std.specs.Prelude.{◌<◌};

use std::collections::VecDeque;

/// A stripe, with the calls of the batch that work on it.
#[derive(Drop)]
pub(crate) struct Piece {
    /// Which of the stripes it is.
    pub(crate) number: usize,
    pub(crate) items: VecDeque<u32>,
    /// The items that are put at the end of the stripe, in order.
    pub(crate) puts: Vec<u32>,
    /// How many of the batch's gets take an item of this stripe.
    pub(crate) gets: usize,
    ghost low: { number < 16 },
}

/// A stripe after its piece, and the items that were taken, the oldest first.
#[derive(Drop)]
pub(crate) struct Served {
    pub(crate) number: usize,
    pub(crate) items: VecDeque<u32>,
    pub(crate) taken: Vec<u32>,
    ghost low: { number < 16 },
}
