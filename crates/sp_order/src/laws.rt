//! The laws of plans, on which a scheduler relies. Each is the contract of a function that does nothing.
ghost use Rattle.std.specs.Prelude.{◌≡◌, ◌≢◌, ℕ, ◌<◌, ◌↔◌, None, Some};
ghost use Rattle.sp_order.specs.declared.node.Kind.TheVariants.{LeafNode};
ghost use Rattle.sp_order.specs.Precedence.{Tree, leaves, IsBefore};
ghost use Rattle.sp_order.specs.Plans.{Nodes, IsPlan, IsBySeries};
ghost use Rattle.sp_order.specs.PlanOf.{IsPlanOf};
ghost use Rattle.sp_order.specs.Preorder.{nodes_of};

/// A plan that stands for a tree has the local facts of `IsPlan`: node 0 alone has no parent, each side is named by its
/// parent and has the move of its place, and every node has a number below the count.
pub fn plan_has_sides()
    ensures { (plan : Nodes) (tree : Tree) → IsPlanOf plan tree → IsPlan plan }
{}

/// A plan that stands for a tree has a root: node 0 has a kind, and the count is not 0.
pub fn plan_has_root()
    ensures { (plan : Nodes) (tree : Tree) → IsPlanOf plan tree
        → (plan.kind 0 ≢ None) × (0 < plan.count) }
{}

/// In a plan that stands for a tree, a leaf is before another one if and only if some series has the first under its
/// left side and the second under its right side.
pub fn before_is_by_series()
    ensures { (plan : Nodes) (tree : Tree) → IsPlanOf plan tree → (u v : ℕ) → u < leaves tree → v < leaves tree → IsBefore (Some tree) u v ↔ IsBySeries plan (plan.node_of u) (plan.node_of v) }
{}

/// In a plan that stands for a tree, each leaf number has exactly one node, which is its `node_of`.
pub fn leaf_has_one_node()
    ensures { (plan : Nodes) (tree : Tree) → IsPlanOf plan tree → (leaf n : ℕ) → leaf < leaves tree → (plan.kind n ≡ Some (LeafNode leaf)) ↔ (n ≡ plan.node_of leaf) }
{}

/// The nodes of a tree in preorder are a plan that stands for the tree.
pub fn plan_stands_for_tree()
    ensures { (tree : Tree) → IsPlanOf (nodes_of tree) tree }
{}
