//! Joins the shapes of blocks while their steps are taken once more.
ghost use Rattle.std.specs.Prelude.{◌≡◌, ◌<◌, [], IfOk};
ghost use Rattle.std.specs.Option.{option_map};
ghost use Rattle.limits.specs.declared.TheConstants.{MOST_LEAVES};
ghost use Rattle.sp_order.specs.Precedence.{tree_of};
ghost use Rattle.joined_shapes.specs.Blocks.{closed, opened, outside, shape_of, with_leaf};
ghost use Rattle.joined_shapes.specs.Code.Joining.{blocks_in};

use job_lang::join::{Order, join};
use sp_order::Shape;
use std::alloc::{AllocError, Global};

/// An open block with the shapes of its items.
#[derive(Drop)]
pub(crate) struct OpenBlock {
    order: Order,
    first: u32,
    shapes: Vec<Shape>,
}

/// The innermost open block, and those around it, the outermost first.
#[derive(Drop)]
pub(crate) struct Joiner {
    alloc: Global,
    inner: OpenBlock,
    outer: Vec<OpenBlock>,
    leaves: u32,
}

impl Joiner {
    pub(crate) fn new(alloc: Global) -> Joiner
        ensures { blocks_in result ≡ outside }
    {
        let inner = OpenBlock {
            order: Order::Series,
            first: 0,
            shapes: Vec::new(alloc),
        };
        Joiner {
            alloc,
            inner,
            outer: Vec::new(alloc),
            leaves: 0,
        }
    }

    pub(crate) fn open(self, order: Order) -> Result<Joiner, AllocError>
        ensures { IfOk result (λ joiner. blocks_in joiner ≡ opened (blocks_in self) order) }
    {
        let Joiner {
            alloc,
            inner,
            mut outer,
            leaves,
        } = self;
        outer.push(inner)?;
        let inner = OpenBlock {
            order,
            first: leaves,
            shapes: Vec::new(alloc),
        };
        Ok(Joiner {
            alloc,
            inner,
            outer,
            leaves,
        })
    }

    pub(crate) fn leaf(self) -> Result<Joiner, AllocError>
        requires { self.leaves < MOST_LEAVES }
        ensures { IfOk result (λ joiner. blocks_in joiner ≡ with_leaf (blocks_in self)) }
    {
        let Joiner {
            alloc,
            mut inner,
            outer,
            leaves,
        } = self;
        inner.shapes.push(Shape::Leaf)?;
        Ok(Joiner {
            alloc,
            inner,
            outer,
            leaves: leaves + 1,
        })
    }

    pub(crate) fn close(self) -> Result<Joiner, AllocError>
        ensures { IfOk result (λ joiner. blocks_in joiner ≡ closed (blocks_in self)) }
    {
        let Joiner {
            alloc,
            inner,
            mut outer,
            leaves,
        } = self;
        let Some(mut block) = outer.pop() else {
            return Ok(Joiner {
                alloc,
                inner,
                outer,
                leaves,
            });
        };
        if let Some(shape) = join(alloc, inner.order, inner.shapes)? {
            block.shapes.push(shape)?;
        }
        Ok(Joiner {
            alloc,
            inner: block,
            outer,
            leaves,
        })
    }

    /// The shape of all items, where no block is open.
    pub(crate) fn shape(self) -> Result<Option<Shape>, AllocError>
        requires { (blocks_in self).around ≡ [] }
        ensures { IfOk result (λ shape. option_map tree_of shape ≡ shape_of (blocks_in self)) }
    {
        join(self.alloc, self.inner.order, self.inner.shapes)
    }
}
