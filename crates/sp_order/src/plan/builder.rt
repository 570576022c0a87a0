//! The builder of a plan: a preorder walk over a shape, with an explicit stack in place of recursion.
ghost use Rattle.std.specs.Prelude.{◌≡◌, ◌+◌, ◌^◌, ◌<◌, [], ◌∷◌, ◌++◌, length, IfOk};
ghost use Rattle.sp_order.specs.Code.PlanBuilder.{lists_in, with_side, HasParentBelow, with_pending, with_all, HaveParents};

use crate::node::{Kind, Move};
use crate::shape::Shape;
use std::alloc::{AllocError, Global};

/// The nodes visited so far. `kinds` and `moves` have an item for each node, in preorder; `leaf_nodes` has the node of
/// each leaf.
#[derive(Drop)]
pub(crate) struct PlanBuilder {
    pub(crate) kinds: Vec<Kind>,
    pub(crate) moves: Vec<Move>,
    pub(crate) leaf_nodes: Vec<u32>,
}

/// A side that is still to be visited, and what follows it once it is done.
#[derive(Clone, Copy)]
pub(crate) struct Pending<'a> {
    pub(crate) shape: &'a Shape,
    pub(crate) after: Move,
}

impl PlanBuilder {
    /// A builder that has visited no node. It takes no memory.
    pub(crate) fn new(alloc: Global) -> PlanBuilder
        ensures kinds { result.kinds.items ≡ [] }
        ensures moves { result.moves.items ≡ [] }
        ensures leaf_nodes { result.leaf_nodes.items ≡ [] }
    {
        PlanBuilder {
            kinds: Vec::new(alloc),
            moves: Vec::new(alloc),
            leaf_nodes: Vec::new(alloc),
        }
    }

    /// Visits the top node of this side, and pushes that node's own sides onto the stack.
    pub(crate) fn visit<'a>(
        &mut self,
        pending: Pending<'a>,
        stack: &mut Vec<Pending<'a>>,
    ) -> Result<(), AllocError>
        requires room { length self.old.kinds.items + 1 < 2 ^ 32 }
        requires leaf_room { length self.old.leaf_nodes.items < 2 ^ 32 }
        requires parent { HasParentBelow (length self.old.kinds.items) pending.after }
        requires parents { HaveParents stack.old.items (lists_in self.old) }
        ensures more { IfOk result (λ _. length self.new.kinds.items ≡ length self.old.kinds.items + 1) }
        ensures parents { IfOk result (λ _. HaveParents stack.new.items (lists_in self.new)) }
        ensures listed { IfOk result (λ _. with_all stack.new.items (lists_in self.new) ≡ with_all stack.old.items (with_pending pending.entry (lists_in self.old))) }
    {
        let node = self.kinds.len() as u32;
        self.set_side(pending.after, node);
        self.moves.push(pending.after)?;
        match pending.shape {
            Shape::Leaf => self.add_leaf(node),
            Shape::Seq(left, right) => {
                let left = Pending {
                    shape: left,
                    after: Move::OpenSecond(node),
                };
                let right = Pending {
                    shape: right,
                    after: Move::FinishParent(node),
                };
                self.add_block(Kind::SeqNode(node + 1, node + 1), left, right, stack)
            }
            Shape::Par(left, right) => {
                let left = Pending {
                    shape: left,
                    after: Move::Arrive(node),
                };
                let right = Pending {
                    shape: right,
                    after: Move::Arrive(node),
                };
                self.add_block(Kind::ParNode(node + 1, node + 1), left, right, stack)
            }
        }
    }

    /// Records this node as the right side of its parent, unless it is the left side of a series. The left side of a
    /// parallel block is overwritten there when the right side is visited. It takes no memory.
    fn set_side(&mut self, after: Move, node: u32)
        requires parent { HasParentBelow node after }
        requires node { node ≡ length self.old.kinds.items }
        ensures kinds { self.new.kinds.items ≡ with_side self.old.kinds.items after node }
        ensures moves { self.new.moves.items ≡ self.old.moves.items }
        ensures leaf_nodes { self.new.leaf_nodes.items ≡ self.old.leaf_nodes.items }
    {
        match after {
            Move::Root | Move::OpenSecond(_) => {}
            Move::FinishParent(parent) => {
                self.kinds[parent as usize] = Kind::SeqNode(parent + 1, node);
            }
            Move::Arrive(parent) => {
                self.kinds[parent as usize] = Kind::ParNode(parent + 1, node);
            }
        }
    }

    /// Appends a leaf node, with the next leaf number.
    fn add_leaf(&mut self, node: u32) -> Result<(), AllocError>
        requires { length self.old.leaf_nodes.items < 2 ^ 32 }
        ensures kinds { IfOk result (λ _. self.new.kinds.items ≡ self.old.kinds.items ++ Kind.LeafNode (length self.old.leaf_nodes.items) ∷ []) }
        ensures moves { self.new.moves.items ≡ self.old.moves.items }
        ensures leaf_nodes { IfOk result (λ _. self.new.leaf_nodes.items ≡ self.old.leaf_nodes.items ++ node ∷ []) }
    {
        let leaf = self.leaf_nodes.len() as u32;
        self.kinds.push(Kind::LeafNode(leaf))?;
        self.leaf_nodes.push(node)?;
        Ok(())
    }

    /// Appends a block node of this kind, and pushes its sides, the left one on top.
    fn add_block<'a>(
        &mut self,
        kind: Kind,
        left: Pending<'a>,
        right: Pending<'a>,
        stack: &mut Vec<Pending<'a>>,
    ) -> Result<(), AllocError>
        ensures kinds { IfOk result (λ _. self.new.kinds.items ≡ self.old.kinds.items ++ kind ∷ []) }
        ensures moves { self.new.moves.items ≡ self.old.moves.items }
        ensures leaf_nodes { self.new.leaf_nodes.items ≡ self.old.leaf_nodes.items }
        ensures stack { IfOk result (λ _. stack.new.items ≡ (stack.old.items ++ right.entry ∷ []) ++ left.entry ∷ []) }
    {
        self.kinds.push(kind)?;
        stack.push(right)?;
        stack.push(left)?;
        Ok(())
    }
}
