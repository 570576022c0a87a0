//! Open blocks, which take leaves and blocks from left to right.
ghost use Rattle.std.specs.Prelude.{◌≡◌, ◌≢◌, ◌<◌, ◌≤◌, [], length, map, reverse, IfOk, OnOk, OnErr};
ghost use Rattle.std.specs.Option.{option_map};
ghost use Rattle.limits.specs.declared.TheConstants.{MOST_LEAVES};
ghost use Rattle.sp_order.specs.Precedence.{tree_of};
ghost use Rattle.joined_shapes.specs.Blocks.{closed, is_series as joins_in_series, is_shown, opened, outside, shape_of, with_leaf};
ghost use Rattle.joined_shapes.specs.Code.Joining.{blocks_in};
ghost use Rattle.joined_shapes.specs.Code.Steps.{starts_show, stepped};

use crate::joiner::Joiner;
use job_lang::join::Order;
use sp_order::Shape;
use std::alloc::{AllocError, Global};
use std::marker::Model;

/// What is added to a job that is put together.
#[derive(Clone, Copy)]
pub(crate) enum Step {
    /// A block, which is open from here on.
    Open(Order),
    /// A leaf.
    Leaf,
    /// The end of the innermost block.
    Close,
}

/// How an open block joins its items, and the number of its first leaf.
#[derive(Clone, Copy)]
pub(crate) struct Start {
    order: Order,
    first: u32,
}

/// The open blocks of a job that is put together from left to right, with all their items. Contracts see `Blocks`. Each
/// change that is refused leaves them as they were.
#[derive(Drop)]
pub struct OpenBlocks {
    alloc: Global,
    steps: Vec<Step>,
    inner: Start,
    outer: Vec<Start>,
    leaves: u32,
}

impl Model for OpenBlocks {
    ghost use Rattle.joined_shapes.specs.Blocks.{Blocks};
    ghost use Rattle.joined_shapes.specs.Codes.{coded_blocks};

    ghost Value = { Blocks };

    ghost coded = { coded_blocks };

    ghost use Rattle.joined_shapes.specs.Code.Steps.{blocks_after, IsKept};

    ghost view = { λ b. blocks_after b.steps.items };

    ghost invariant = { λ b. IsKept (blocks_after b.steps.items) b.inner b.outer.items b.leaves };
}

/// Whether items are joined in series.
fn is_series(order: Order) -> bool
    ensures { result ≡ joins_in_series order }
{
    matches!(order, Order::Series)
}

/// Whether the innermost of these blocks that holds the leaf runs its items in series. The outermost comes first.
fn are_showing(outer: &[Start], leaf: u32) -> bool
    ensures { result ≡ starts_show (reverse outer.now) leaf }
{
    let mut rest = outer;
    while let Some((start, before)) = rest.split_last() {
        if start.first <= leaf {
            return is_series(start.order);
        }
        rest = before;
    }
    false
}

impl OpenBlocks {
    /// No leaf and no block. Memory: none.
    pub fn new(alloc: Global) -> OpenBlocks
        ensures { result ≡ outside }
    {
        let inner = Start {
            order: Order::Series,
            first: 0,
        };
        OpenBlocks {
            alloc,
            steps: Vec::new(alloc),
            inner,
            outer: Vec::new(alloc),
            leaves: 0,
        }
    }

    /// The number of leaves so far.
    pub fn leaves(&self) -> u32
        ensures leaves { result ≡ self.now.leaves }
        ensures most { result ≤ MOST_LEAVES }
    {
        self.leaves
    }

    /// How many blocks are open.
    pub fn open_count(&self) -> usize
        ensures { result ≡ length self.now.around }
    {
        self.outer.len()
    }

    /// Adds a leaf to the innermost block.
    pub fn leaf(&mut self) -> Result<(), AllocError>
        requires { self.old.leaves < MOST_LEAVES }
        ensures ok { OnOk result (self.new ≡ with_leaf self.old) }
        ensures err { OnErr result (self.new ≡ self.old) }
    {
        self.steps.push(Step::Leaf)?;
        self.leaves += 1;
        Ok(())
    }

    /// Opens a block, whose items run in this order.
    pub fn open(&mut self, order: Order) -> Result<(), AllocError>
        ensures ok { OnOk result (self.new ≡ opened self.old order) }
        ensures err { OnErr result (self.new ≡ self.old) }
    {
        self.outer.reserve(1)?;
        self.steps.push(Step::Open(order))?;
        self.outer.push_reserved(self.inner);
        self.inner = Start {
            order,
            first: self.leaves,
        };
        Ok(())
    }

    /// Closes the innermost block.
    pub fn close(&mut self) -> Result<(), AllocError>
        requires { self.old.around ≢ [] }
        ensures ok { OnOk result (self.new ≡ closed self.old) }
        ensures err { OnErr result (self.new ≡ self.old) }
    {
        self.steps.push(Step::Close)?;
        if let Some(start) = self.outer.pop() {
            self.inner = start;
        }
        Ok(())
    }

    /// Whether this leaf is before each leaf that is added next. It looks at each open block at most once.
    pub fn shows(&self, leaf: u32) -> bool
        ensures { result ≡ is_shown self.now leaf }
    {
        if self.inner.first <= leaf {
            return is_series(self.inner.order);
        }
        are_showing(self.outer.as_slice(), leaf)
    }

    /// The shape of all items. It takes as many steps as were taken so far, and memory for the shape.
    pub fn shape(&self) -> Result<Option<Shape>, AllocError>
        requires { self.now.around ≡ [] }
        ensures { IfOk result (λ shape. option_map tree_of shape ≡ shape_of self.now) }
    {
        let mut joiner = Joiner::new(self.alloc);
        for step in self.steps.as_slice() {
            joiner = after(joiner, *step)?;
        }
        joiner.shape()
    }
}

/// The joiner after one more step.
fn after(joiner: Joiner, step: Step) -> Result<Joiner, AllocError>
    requires { (stepped (blocks_in joiner) step).leaves ≤ MOST_LEAVES }
    ensures { IfOk result (λ after. blocks_in after ≡ stepped (blocks_in joiner) step) }
{
    match step {
        Step::Open(order) => joiner.open(order),
        Step::Leaf => joiner.leaf(),
        Step::Close => joiner.close(),
    }
}
