//! Series-parallel shapes: how the leaves of a job are composed.
ghost use Rattle.std.specs.Prelude.{◌≡◌, ◌<◌, ◌^◌};

/// A series-parallel composition of leaves. Leaves are numbered from 0, from left to right.
#[derive(Drop)]
pub enum Shape {
    /// One leaf.
    Leaf,
    /// The left side, and then the right side.
    Seq(Box<Shape>, Box<Shape>),
    /// The two sides, in any order or at once.
    Par(Box<Shape>, Box<Shape>),
}

impl Shape {
    ghost use Rattle.sp_order.specs.Precedence.{tree_of};
    ghost use Rattle.sp_order.specs.Depth.{tree_depth};

    /// The depth in blocks: 0 for a leaf, else one more than that of the deeper side. It recurses once for each level.
    pub(crate) fn depth(&self) -> u32
        requires { tree_depth (tree_of self.now) < 2 ^ 32 }
        ensures { result ≡ tree_depth (tree_of self.now) }
    {
        match self {
            Shape::Leaf => 0,
            Shape::Seq(left, right) | Shape::Par(left, right) => {
                1 + left.depth().max(right.depth())
            }
        }
    }
}
