//! The kind of work that a board hands out.

/// A kind of work: the input of a piece, its output, and the specification that relates them.
pub trait Work {
    /// The input of a piece. It can be sent to another thread.
    type In: Drop + Send;
    /// The output of a piece. It can be sent to another thread.
    type Out: Drop + Send;

    /// The specification of a piece: which outputs are right for an input.
    ghost meets: { Self.In → Self.Out → Type 0 };
}
