//! The nodes of a plan: their kinds, and what follows them.
ghost use Rattle.std.specs.Prelude.{◌≡◌};

/// The kind of a node.
#[derive(Clone, Copy)]
pub enum Kind {
    /// A leaf, with its number among the leaves.
    LeafNode(u32),
    /// A series, with the nodes of its left side and of its right side.
    SeqNode(u32, u32),
    /// A parallel block, with the nodes of its left side and of its right side.
    ParNode(u32, u32),
}

/// What follows a node once it is done, with the number of its parent.
#[derive(Clone, Copy, PartialEq)]
pub enum Move {
    /// The node is the root, so the job is done.
    Root,
    /// The node is the left side of a series, whose right side may begin.
    OpenSecond(u32),
    /// The node is the right side of a series, which is done too.
    FinishParent(u32),
    /// The node is a side of a parallel block, which is done once both sides are.
    Arrive(u32),
}

impl Move {
    ghost use Rattle.sp_order.specs.Plans.{parent_of};

    /// The node's parent, if it is not the root.
    pub fn parent(self) -> Option<u32>
        ensures { result ≡ parent_of self }
    {
        match self {
            Move::Root => None,
            Move::OpenSecond(parent) => Some(parent),
            Move::FinishParent(parent) => Some(parent),
            Move::Arrive(parent) => Some(parent),
        }
    }
}
