//! `Tree23`, modelled as the list of its keys.
ghost use Rattle.std.specs.Prelude.{◌≡◌, ◌+◌, ◌*◌, ◌<◌, ◌≤◌, ◌^◌, [], ◌++◌, length, not, IfOk, OnOk, OnErr};
ghost use Rattle.std.specs.List.{AllByRecursion};
ghost use Rattle.key_sets.specs.Keys.{StrictlyAscends, AllBelow, with_key, has, without_key, least_above};
ghost use Rattle.key_sets.specs.Splits.{IsSplit};

#[doc(hidden)]
pub mod join;

use crate::tree::join::put_after;
use crate::trees::Trees;
use crate::trees::cut::{Cut, cut_at};
use crate::trees::join::{join_many, join_reversed};
use std::alloc::{AllocError, Global};
use std::marker::Model;
use tree_nodes::Pool;
use tree_nodes::insert::insert_at_root;
use tree_nodes::node::Rooted;
use tree_nodes::remove::{pop_first, remove_in, shrink_root};
use tree_nodes::search::{find_in, next_in};

/// A set of 32-bit numbers, as a balanced tree. Its model is the strictly ascending list of its keys.
#[derive(Drop)]
pub struct Tree23 {
    pub(crate) root: Rooted,
    pub(crate) alloc: Global,
}

impl Model for Tree23 {
    ghost use Rattle.std.specs.Prelude.{ℕ, List};

    ghost Value = { List ℕ };

    ghost use Rattle.tree_nodes.specs.Nodes.{keys, IsRootedSet};

    ghost view = { λ t. keys t.root.tree };

    ghost invariant = { λ t. IsRootedSet t.root };
}

impl Tree23 {
    /// The empty set.
    ///
    /// Memory: none.
    pub fn new(alloc: Global) -> Tree23
        ensures { result ≡ [] }
    {
        Tree23 {
            root: Rooted::empty(),
            alloc,
        }
    }

    /// A lemma for proofs, which does nothing: the keys strictly ascend and have 32 bits.
    pub fn keys_ascend(&self)
        ensures ascends { StrictlyAscends self.now }
        ensures small { AllByRecursion (λ k. k < 2 ^ 32) self.now }
    {
        let _root = &self.root.tree;
    }

    /// The number of keys, counted at each call.
    ///
    /// Time: linear in the number of leaves.
    pub fn len(&self) -> u64
        ensures keys { result ≡ length self.now }
        ensures small { result ≤ 2 ^ 32 }
    {
        self.root.tree.size()
    }

    /// The number of node levels above the leaves. A leaf has up to 256 keys, so a small set may have depth 0.
    pub fn depth(&self) -> u32
        ensures least { 2 ^ result ≤ length self.now + 1 }
        ensures most { length self.now < 257 * 3 ^ result }
    {
        self.root.height as u32
    }

    /// Whether the set has the key.
    pub fn find(&self, key: u32) -> bool
        ensures { result ≡ has key self.now }
    {
        find_in(&self.root.tree, key)
    }

    /// The least key greater than `key`, if there is one.
    pub fn next(&self, key: u32) -> Option<u32>
        ensures { result ≡ least_above key self.now }
    {
        next_in(&self.root.tree, key)
    }

    /// Inserts the key, and returns whether it is new.
    #[tactic(auto, using(tree_nodes::proofs::TreeLemmas::Inserting::set_inserted, tree_nodes::proofs::TreeLemmas::Inserting::inserted_keys, tree_nodes::proofs::TreeLemmas::Inserting::inserted_answer))]
    pub fn insert(&mut self, key: u32) -> Result<bool, AllocError>
        ensures answer { IfOk result (λ added. added ≡ not (has key self.old)) }
        ensures keys { OnOk result (self.new ≡ with_key key self.old) }
        ensures err { OnErr result (self.new ≡ self.old) }
    {
        let added = insert_at_root(self.alloc, &mut self.root, key)?;
        Ok(added)
    }

    /// Removes the key, and returns whether it was present.
    ///
    /// Memory: none.
    #[tactic(auto, using(tree_nodes::proofs::TreeLemmas::Trees::set_without, tree_nodes::proofs::TreeLemmas::Removing::removed_keys, tree_nodes::proofs::TreeLemmas::Removing::removed_found))]
    pub fn remove(&mut self, key: u32) -> bool
        ensures answer { result ≡ has key self.old }
        ensures keys { self.new ≡ without_key key self.old }
    {
        let found = remove_in(&mut self.root.tree, key);
        shrink_root(&mut self.root);
        found
    }

    /// Splits the set into the keys below `key` and the others. Subtrees beside the path to `key` move whole.
    pub fn split_below(self, key: u32) -> Result<(Tree23, Tree23), AllocError>
        ensures { IfOk result (λ p. IsSplit key self p.0 p.1) }
    {
        let alloc = self.alloc;
        let mut pool = Pool::new(alloc);
        let mut sides = Cut {
            low: Trees::empty(alloc),
            before: None,
            high: Trees::empty(alloc),
        };
        cut_at(self.root, key, &mut sides, &mut pool)?;
        let Cut { mut low, high, .. } = sides;
        join_many(&mut low, 0, &mut pool)?;
        let root = join_reversed(high, &mut pool)?;
        let low = Tree23 {
            root: low.front,
            alloc,
        };
        Ok((low, Tree23 { root, alloc }))
    }

    /// The union of two sets, where all keys of `low` are below those of `high`. The first key of `high` becomes the
    /// separator, and the shallower tree moves whole to the edge of the deeper one.
    pub fn concat(low: Tree23, high: Tree23) -> Result<Tree23, AllocError>
        requires { AllBelow low high }
        ensures { IfOk result (λ tree. tree ≡ low ++ high) }
    {
        let alloc = low.alloc;
        let mut root = low.root;
        let mut rest = high.root;
        if let Some(key) = pop_first(&mut rest.tree) {
            shrink_root(&mut rest);
            put_after(&mut root, key, rest, &mut Pool::new(alloc))?;
        }
        Ok(Tree23 { root, alloc })
    }
}
