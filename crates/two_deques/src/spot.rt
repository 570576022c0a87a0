//! The location of a piece of a batch.

/// The location of a piece on the board: `row` is the worker that launched its batch (the combiner), and `place` its
/// place in this row.
#[derive(Clone, Copy)]
pub struct Spot {
    pub row: u32,
    pub place: u32,
}
