//! Cutting a tree at a key. Only the nodes on the path to the key are opened; all other subtrees move whole to one
//! side.
ghost use Rattle.std.specs.Prelude.{◌≡◌, ◌+◌, ◌++◌, ◌∷◌, [], Some, IfOk, OnOk};
ghost use Rattle.key_sets.specs.Keys.{StrictlyAscends};
ghost use Rattle.tree_nodes.specs.Nodes.{keys, depth, IsTree, IsRooted};
ghost use Rattle.tree23.specs.SideBySide.{AreTrees};
ghost use Rattle.tree23.specs.Code.Cuts.{CanStand, low_keys, whole_keys, IsOpenCut, IsLeft, IsCut};

use crate::trees::Trees;
use std::alloc::AllocError;
use tree_nodes::Pool;
use tree_nodes::leaf::cut_leaf;
use tree_nodes::node::{Rooted, Tree};

/// The two sides of a cut in progress. `before` is the key just before the tree that is being cut, if there is one. The
/// entries of `high` are in reverse order.
#[derive(Drop)]
pub struct Cut {
    pub low: Trees,
    pub before: Option<u32>,
    pub high: Trees,
}

impl Cut {
    /// Appends a tree to the low side. `key`, which comes after that tree, becomes `before`.
    #[inline]
    pub fn put_low(&mut self, tree: Tree, height: u64, key: u32) -> Result<(), AllocError>
        requires trees { AreTrees self.old.low }
        requires tree { IsTree tree }
        requires height { height ≡ depth tree }
        requires stands { CanStand self.old.before self.old.low }
        ensures trees { OnOk result (AreTrees self.new.low) }
        ensures keys { OnOk result (low_keys self.new ≡ low_keys self.old ++ (keys tree ++ key ∷ [])) }
        ensures before { OnOk result (self.new.before ≡ Some key) }
        ensures high { self.new.high ≡ self.old.high }
    {
        self.low.put(self.before, tree, height)?;
        self.before = Some(key);
        Ok(())
    }
}

/// Cuts a tree at `key`: its keys below `key` go to the end of the low side, the others to the front of the high side.
pub fn cut_at(rooted: Rooted, key: u32, sides: &mut Cut, pool: &mut Pool) -> Result<(), AllocError>
    requires rooted { IsRooted rooted }
    requires ascends { StrictlyAscends (keys rooted.tree) }
    requires sides { IsOpenCut key sides.old }
    ensures { OnOk result (IsCut key (whole_keys (keys rooted.tree) sides.old) sides.new) }
{
    let mut height = rooted.height;
    let mut tree = rooted.tree;
    while height > 0 {
        height -= 1;
        tree = open_root(tree, height, key, sides, pool)?;
    }
    cut_bottom(tree, key, sides, pool)
}

/// Opens a root whose children have the given height. Returns the child in which the cut lies; the other children go to
/// the sides.
#[inline]
fn open_root(
    tree: Tree,
    height: u64,
    key: u32,
    sides: &mut Cut,
    pool: &mut Pool,
) -> Result<Tree, AllocError>
    requires tree { IsTree tree }
    requires level { depth tree ≡ height + 1 }
    requires ascends { StrictlyAscends (keys tree) }
    requires sides { IsOpenCut key sides.old }
    ensures tree { IfOk result (λ part. IsTree part) }
    ensures depth { IfOk result (λ part. depth part ≡ height) }
    ensures left { IfOk result (λ part. IsLeft key (whole_keys (keys tree) sides.old) (keys part) sides.new) }
{
    match tree {
        Tree::Two(mut node) => {
            let (first, low, second) = node.take_two();
            pool.give(node);
            if key <= low {
                sides.high.push(low, second, height)?;
                Ok(first)
            } else {
                sides.put_low(first, height, low)?;
                Ok(second)
            }
        }
        Tree::Three(mut node) => {
            let (first, low, second, high, third) = node.take_three();
            pool.give(node);
            if key <= low {
                sides.high.push(high, third, height)?;
                sides.high.push(low, second, height)?;
                return Ok(first);
            }
            sides.put_low(first, height, low)?;
            if key <= high {
                sides.high.push(high, third, height)?;
                Ok(second)
            } else {
                sides.put_low(second, height, high)?;
                Ok(third)
            }
        }
        Tree::Empty | Tree::Leaf(_) | Tree::Underfull(_) => unreachable!(),
    }
}

/// Cuts a leaf, which ends a cut. An empty tree goes to the low side.
#[inline]
fn cut_bottom(tree: Tree, key: u32, sides: &mut Cut, pool: &mut Pool) -> Result<(), AllocError>
    requires tree { IsTree tree }
    requires bottom { depth tree ≡ 0 }
    requires ascends { StrictlyAscends (keys tree) }
    requires sides { IsOpenCut key sides.old }
    ensures { OnOk result (IsCut key (whole_keys (keys tree) sides.old) sides.new) }
{
    match tree {
        Tree::Empty => sides.low.put(sides.before, Tree::Empty, 0),
        Tree::Leaf(mut leaf) => {
            let after = cut_leaf(&mut leaf, key, pool.take_leaf()?)?;
            sides.high.front = Rooted {
                tree: Tree::Leaf(after),
                height: 0,
            };
            sides.low.put(sides.before, Tree::Leaf(leaf), 0)
        }
        Tree::Underfull(_) | Tree::Two(_) | Tree::Three(_) => unreachable!(),
    }
}
