//! A row of trees with a key between neighbours: a cut divides a tree into two such rows, and a forest is one.
ghost use Rattle.std.specs.Prelude.{◌≡◌, ◌+◌, ◌++◌, ◌∷◌, [], length, reverse, OnOk};
ghost use Rattle.std.specs.Option.{option_to_list};
ghost use Rattle.tree_nodes.specs.declared.node.Tree.TheVariants.{Empty};
ghost use Rattle.tree_nodes.specs.Nodes.{keys, depth, IsTree};
ghost use Rattle.tree23.specs.SideBySide.{entry_keys, in_order, in_reverse, AreTrees};
ghost use Rattle.tree23.specs.Code.Cuts.{CanStand};

pub mod cut;
pub mod join;

use std::alloc::{AllocError, Global};
use tree_nodes::node::{Rooted, Tree};

/// A tree, with the key before it.
#[derive(Drop)]
pub struct KeyedTree {
    pub key: u32,
    pub rooted: Rooted,
}

/// A row of trees: the first, and the others, each with the key before it.
#[derive(Drop)]
pub struct Trees {
    pub front: Rooted,
    pub entries: Vec<KeyedTree>,
}

impl Trees {
    /// A row of one empty tree.
    ///
    /// Memory: none.
    #[inline]
    pub fn empty(alloc: Global) -> Trees
        ensures trees { AreTrees result }
        ensures front { result.front.tree ≡ Empty }
        ensures entries { result.entries.items ≡ [] }
    {
        Trees {
            front: Rooted::empty(),
            entries: Vec::new(alloc),
        }
    }

    /// Appends a key, and after it a tree of the given height.
    #[inline]
    pub fn push(&mut self, key: u32, tree: Tree, height: u64) -> Result<(), AllocError>
        requires trees { AreTrees self.old }
        requires tree { IsTree tree }
        requires height { height ≡ depth tree }
        ensures trees { OnOk result (AreTrees self.new) }
        ensures forest { OnOk result (in_order self.new ≡ in_order self.old ++ key ∷ keys tree) }
        ensures stack { OnOk result (in_reverse self.new
            ≡ keys self.old.front.tree ++ key ∷ (keys tree ++ entry_keys (reverse self.old.entries.items))) }
        ensures front { self.new.front ≡ self.old.front }
        ensures count { OnOk result (length self.new.entries.items ≡ length self.old.entries.items + 1) }
    {
        let rooted = Rooted { tree, height };
        self.entries.push(KeyedTree { key, rooted })?;
        Ok(())
    }

    /// Appends a tree after the key `before`. Without one, the tree becomes the only tree of a row that has no keys.
    #[inline]
    pub fn put(&mut self, before: Option<u32>, tree: Tree, height: u64) -> Result<(), AllocError>
        requires trees { AreTrees self.old }
        requires tree { IsTree tree }
        requires height { height ≡ depth tree }
        requires stands { CanStand before self.old }
        ensures trees { OnOk result (AreTrees self.new) }
        ensures forest { OnOk result (in_order self.new ≡ in_order self.old ++ (option_to_list before ++ keys tree)) }
    {
        match before {
            Some(key) => self.push(key, tree, height),
            None => {
                self.front = Rooted { tree, height };
                Ok(())
            }
        }
    }
}
