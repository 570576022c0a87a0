//! The outcome of one pop or steal, with that of the claim that follows.

use two_deques::Spot;

/// The outcome of a pop or steal at a deque of pieces, and of the claim on the board.
#[derive(Clone, Copy)]
pub enum PieceAttempt {
    /// The deque gave this spot, and its piece was claimed and run.
    Ran(Spot),
    /// The deque gave this spot, and the board refused its claim.
    Stale(Spot),
    /// The deque gave nothing, or none was tried.
    Empty,
}

/// The outcome of a pop or steal at a deque of nodes, and of the claim on the table.
#[derive(Clone, Copy)]
pub enum NodeAttempt {
    /// The deque gave this node, and it was claimed.
    Claimed(u32),
    /// The deque gave this node, and the table refused its claim.
    Refused(u32),
    /// The deque gave nothing.
    NoNode,
}

/// The outcome of the one steal of a free worker's turn.
#[derive(Clone, Copy)]
pub enum StealAttempt {
    /// There is no other worker, and so no steal.
    NoVictim,
    /// The steal was at a deque of nodes.
    Node(NodeAttempt),
    /// The steal was at a deque of pieces.
    Piece(PieceAttempt),
}
