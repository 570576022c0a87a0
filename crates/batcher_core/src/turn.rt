//! The results of a worker's turn.

/// What a worker's turn did.
#[derive(Clone, Copy)]
pub enum Turn {
    /// One event happened.
    Moved,
    /// Nothing happened: the worker has started a leaf of this many steps of work, which the caller must do.
    Spin(u32),
    /// Nothing happened: the worker has no event in this state.
    Idle,
}
