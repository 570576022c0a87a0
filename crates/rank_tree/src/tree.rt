//! `RankTree`, modelled as the list of its entries.
ghost use Rattle.std.specs.Prelude.{◌≡◌, ◌+◌, ◌*◌, ◌<◌, ◌≤◌, ◌^◌, [], ◌++◌, length, IfOk, OnOk, OnErr};
ghost use Rattle.std.specs.List.{AllByRecursion};
ghost use Rattle.keyed_pieces.specs.Ranges.{below, from};
ghost use Rattle.rank_nodes.specs.Maps.{key_of, Ascends, value_at, with_entry, without_entry, rank_of, key_at, AllBelow};

use crate::cut::cut_at;
use crate::join::join;
use crate::search::{get_in, nth_in, rank_in};
use rank_nodes::insert::put_at_root;
use rank_nodes::node::Rooted;
use rank_nodes::remove::{pop_first, remove_in, shrink_root};
use rank_nodes::{Boxes, Entry};
use std::alloc::{AllocError, Global};
use std::marker::Model;

/// A map from 32-bit keys to 32-bit values, as a balanced tree. Its model is the list of its entries, whose keys
/// strictly ascend.
#[derive(Drop)]
pub struct RankTree {
    pub(crate) root: Rooted,
    pub(crate) alloc: Global,
}

impl Model for RankTree {
    ghost use Rattle.std.specs.Prelude.{List};
    ghost use Rattle.rank_nodes.specs.declared.entry.Entry.{Entry};

    ghost Value = { List Entry };

    ghost use Rattle.rank_nodes.specs.Nodes.{entries, IsRootedMap};

    ghost view = { λ t. entries t.root.tree };

    ghost invariant = { λ t. IsRootedMap t.root };
}

impl RankTree {
    /// The empty map.
    ///
    /// Memory: none.
    pub fn new(alloc: Global) -> RankTree
        ensures { result ≡ [] }
    {
        RankTree {
            root: Rooted::empty(),
            alloc,
        }
    }

    /// A lemma for proofs, which does nothing: the keys strictly ascend and have 32 bits.
    pub fn keys_ascend(&self)
        ensures ascends { Ascends self.now }
        ensures small { AllByRecursion (λ e. e.key < 2 ^ 32) self.now }
    {
        let _root = &self.root.tree;
    }

    /// The number of keys.
    ///
    /// Time: constant.
    pub fn len(&self) -> u64
        ensures entries { result ≡ length self.now }
        ensures small { result ≤ 2 ^ 32 }
    {
        self.root.tree.size()
    }

    /// The number of node levels above the leaves. A leaf has up to 64 entries, so a small map may have depth 0.
    pub fn depth(&self) -> u32
        ensures least { 2 ^ result ≤ length self.now + 1 }
        ensures most { length self.now < 65 * 3 ^ result }
    {
        self.root.height as u32
    }

    /// The value of the key, if present.
    pub fn get(&self, key: u32) -> Option<u32>
        ensures { result ≡ value_at key self.now }
    {
        get_in(&self.root.tree, key)
    }

    /// The number of keys below `key`, which need not be present.
    #[tactic(auto, using(rank_nodes::proofs::TreeLemmas::Trees::map_count, rank_nodes::proofs::TreeLemmas::Depths::count_is))]
    pub fn rank(&self, key: u32) -> u64
        ensures rank { result ≡ rank_of key self.now }
        ensures within { result ≤ length self.now }
    {
        rank_in(&self.root.tree, key)
    }

    /// The key with exactly `i` keys below it, if there are more than `i`.
    pub fn nth(&self, i: u64) -> Option<u32>
        ensures { result ≡ key_at i self.now }
    {
        nth_in(&self.root.tree, i)
    }

    /// Sets the value of the key, and returns the value that it had, if any.
    #[tactic(auto, using(rank_nodes::proofs::TreeLemmas::Inserting::map_put, rank_nodes::proofs::TreeLemmas::Trees::map_count, rank_nodes::proofs::TreeLemmas::Trees::map_depth))]
    pub fn put(&mut self, key: u32, val: u32) -> Result<Option<u32>, AllocError>
        ensures answer { IfOk result (λ was. was ≡ value_at key self.old) }
        ensures entries { OnOk result (self.new ≡ with_entry key val self.old) }
        ensures err { OnErr result (self.new ≡ self.old) }
    {
        let was = put_at_root(self.alloc, &mut self.root, Entry { key, val })?;
        Ok(was)
    }

    /// Removes the key, and returns the value that it had, if any.
    ///
    /// Memory: none.
    #[tactic(auto, using(rank_nodes::proofs::TreeLemmas::Removing::map_taken, rank_nodes::proofs::TreeLemmas::Trees::map_count))]
    pub fn del(&mut self, key: u32) -> Option<u32>
        ensures answer { result ≡ value_at key self.old }
        ensures entries { self.new ≡ without_entry key self.old }
    {
        let was = remove_in(&mut self.root.tree, key);
        shrink_root(&mut self.root);
        was
    }

    /// Splits the map into the entries whose keys are below `key` and the others. Subtrees beside the path to `key`
    /// move whole.
    pub fn split_below(self, key: u32) -> Result<(RankTree, RankTree), AllocError>
        ensures low { IfOk result (λ p. p.0 ≡ below key_of key self) }
        ensures high { IfOk result (λ p. p.1 ≡ from key_of key self) }
    {
        let alloc = self.alloc;
        let mut boxes = Boxes::new(alloc);
        let Rooted { tree, height } = self.root;
        let (low, high) = cut_at(tree, height, key, &mut boxes)?;
        let low = RankTree { root: low, alloc };
        Ok((low, RankTree { root: high, alloc }))
    }

    /// The union of two maps, where all keys of `low` are below those of `high`. The first entry of `high` becomes the
    /// separator, and the shallower tree moves whole to the edge of the deeper one. If one map is empty, the other is
    /// returned as it is.
    pub fn concat(low: RankTree, high: RankTree) -> Result<RankTree, AllocError>
        requires { AllBelow low high }
        ensures { IfOk result (λ tree. tree ≡ low ++ high) }
    {
        if low.root.tree.size() == 0 {
            return Ok(high);
        }
        let alloc = low.alloc;
        let mut rest = high.root;
        let Some(entry) = pop_first(&mut rest.tree) else {
            return Ok(RankTree {
                root: low.root,
                alloc,
            });
        };
        shrink_root(&mut rest);
        let root = join(low.root, entry, rest, &mut Boxes::new(alloc))?;
        Ok(RankTree { root, alloc })
    }
}
