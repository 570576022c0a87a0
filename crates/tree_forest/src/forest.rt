//! `Forest`, modelled as the list of its keys and the number of its trees.
ghost use Rattle.std.specs.Prelude.{◌≡◌, ◌+◌, ◌<◌, ◌≤◌, ◌^◌, [], ◌++◌, not, IfOk, OnOk, OnErr};
ghost use Rattle.std.specs.List.{AllByRecursion};
ghost use Rattle.key_sets.specs.Keys.{StrictlyAscends, AllBelow, with_key, has, without_key, least_above};
ghost use Rattle.tree23.specs.SideBySide.{in_order, AreTrees};
ghost use Rattle.tree_forest.specs.Forests.{tree_count, IsKeySet};
ghost use Rattle.tree_forest.specs.Views.{most_trees};

pub(crate) mod calls;
pub(crate) mod compact;
pub mod remaining;

use crate::forest::calls::{find_in_trees, insert_in_trees, next_in_trees, remove_in_trees};
use crate::forest::compact::{MANY, append, compact};
use crate::pool::ForestPool;
use std::alloc::{AllocError, Global};
use std::marker::Model;
use std::mem;
use tree23::trees::Trees;

/// A set of 32-bit numbers, as a row of balanced trees. Its model is the strictly ascending list of its keys, with the
/// number of its trees.
#[derive(Drop)]
pub struct Forest {
    pub(crate) trees: Trees,
    pub(crate) alloc: Global,
}

impl Model for Forest {
    ghost use Rattle.tree_forest.specs.Views.{ForestView};

    ghost Value = { ForestView };

    ghost use Rattle.tree23.specs.SideBySide.{in_order, AreTrees};
    ghost use Rattle.tree_forest.specs.Forests.{tree_count, IsKeySet};

    ghost view = { λ f. record { keys = in_order f.trees; trees = tree_count f.trees } };

    ghost invariant = { λ f. AreTrees f.trees × IsKeySet (in_order f.trees) };
}

impl Forest {
    /// The empty set, as one empty tree.
    ///
    /// Memory: none.
    pub fn new(alloc: Global) -> Forest
        ensures keys { result.keys ≡ [] }
        ensures trees { result.trees ≡ 1 }
    {
        Forest {
            trees: Trees::empty(alloc),
            alloc,
        }
    }

    pub(crate) fn of(trees: Trees, alloc: Global) -> Forest
        requires trees { AreTrees trees }
        requires set { IsKeySet (in_order trees) }
        ensures keys { result.keys ≡ in_order trees }
        ensures trees { result.trees ≡ tree_count trees }
    {
        Forest { trees, alloc }
    }

    /// A lemma for proofs, which does nothing: the keys strictly ascend and have 32 bits.
    pub fn keys_ascend(&self)
        ensures ascends { StrictlyAscends self.now.keys }
        ensures small { AllByRecursion (λ k. k < 2 ^ 32) self.now.keys }
    {
        let _front = &self.trees.front;
    }

    /// Whether the set has the key.
    pub fn find(&self, key: u32) -> bool
        ensures { result ≡ has key self.now.keys }
    {
        find_in_trees(&self.trees, key)
    }

    /// The least key greater than `key`, if there is one.
    pub fn next(&self, key: u32) -> Option<u32>
        ensures { result ≡ least_above key self.now.keys }
    {
        next_in_trees(&self.trees, key)
    }

    /// Inserts the key, and returns whether it is new.
    #[tactic(auto, using(crate::proofs::ForestLemmas::KeySets::key_set_length, crate::proofs::ForestLemmas::KeySets::key_set_inserted, tree_nodes::proofs::TreeLemmas::Inserting::inserted_keys, tree_nodes::proofs::TreeLemmas::Inserting::inserted_answer))]
    pub fn insert(&mut self, key: u32) -> Result<bool, AllocError>
        ensures answer { IfOk result (λ added. added ≡ not (has key self.old.keys)) }
        ensures keys { OnOk result (self.new.keys ≡ with_key key self.old.keys) }
        ensures err { OnErr result (self.new.keys ≡ self.old.keys) }
        ensures trees { self.new.trees ≡ self.old.trees }
    {
        let added = insert_in_trees(self.alloc, &mut self.trees, key)?;
        Ok(added)
    }

    /// Removes the key, and returns whether it was present.
    ///
    /// Memory: none.
    pub fn remove(&mut self, key: u32) -> bool
        ensures answer { result ≡ has key self.old.keys }
        ensures keys { self.new.keys ≡ without_key key self.old.keys }
        ensures trees { self.new.trees ≤ self.old.trees }
    {
        remove_in_trees(&mut self.trees, key)
    }

    /// Appends a forest whose keys are all above those of this one. Where a higher tree comes after lower ones, these
    /// are merged. On `Err`, all keys are lost.
    #[tactic(auto, using(crate::proofs::ForestLemmas::KeySets::key_set_length))]
    pub fn append(&mut self, high: Forest, pool: &mut ForestPool) -> Result<(), AllocError>
        requires { AllBelow self.old.keys high.keys }
        ensures keys { OnOk result (self.new.keys ≡ self.old.keys ++ high.keys) }
        ensures trees { OnOk result (self.new.trees ≤ self.old.trees + high.trees) }
        ensures err { OnErr result (self.new.keys ≡ []) }
    {
        let alloc = self.alloc;
        let mut trees = mem::replace(&mut self.trees, Trees::empty(alloc));
        append(&mut trees, high.trees, pool)?;
        self.trees = trees;
        Ok(())
    }

    /// Merges trees if there are more than 65, so that at most 65 are left. On `Err`, all keys are lost.
    #[tactic(auto, using(crate::proofs::ForestLemmas::KeySets::key_set_length))]
    pub fn compact(&mut self, pool: &mut ForestPool) -> Result<(), AllocError>
        ensures keys { OnOk result (self.new.keys ≡ self.old.keys) }
        ensures trees { OnOk result (self.new.trees ≤ most_trees) }
        ensures err { OnErr result (self.new.keys ≡ []) }
    {
        if self.trees.entries.len() > MANY {
            let alloc = self.alloc;
            let trees = mem::replace(&mut self.trees, Trees::empty(alloc));
            self.trees = compact(trees, pool)?;
        }
        Ok(())
    }
}
