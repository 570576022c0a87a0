//! Memory that one batch leaves for the next.
ghost use Rattle.std.specs.Prelude.{◌≡◌, []};

use seq_objects::{Call, Reply};
use std::alloc::Global;
use std::mem;
use tree_forest::ForestPool;

/// Boxes and vectors for reuse. No contract of a set depends on their content.
#[derive(Drop)]
pub struct Pool {
    pub trees: ForestPool,
    calls: Vec<Vec<Call>>,
    replies: Vec<Vec<Reply>>,
    keys: Vec<u32>,
    starts: Vec<u32>,
    groups: Vec<usize>,
    alloc: Global,
}

impl Pool {
    /// An empty pool.
    ///
    /// Memory: none.
    pub fn new(alloc: Global) -> Pool {
        Pool {
            trees: ForestPool::new(alloc),
            calls: Vec::new(alloc),
            replies: Vec::new(alloc),
            keys: Vec::new(alloc),
            starts: Vec::new(alloc),
            groups: Vec::new(alloc),
            alloc,
        }
    }

    /// An empty vector for the calls of a piece.
    pub fn take_calls(&mut self) -> Vec<Call>
        ensures { result.items ≡ [] }
    {
        match self.calls.pop() {
            Some(mut calls) => {
                calls.clear();
                calls
            }
            None => Vec::new(self.alloc),
        }
    }

    /// Keeps the vector for reuse. Drops it if the pool cannot grow.
    pub fn keep_calls(&mut self, calls: Vec<Call>) {
        if let Err(_) = self.calls.push(calls) {}
    }

    /// A vector for the replies of a piece, with stale content.
    pub fn take_replies(&mut self) -> Vec<Reply> {
        match self.replies.pop() {
            Some(replies) => replies,
            None => Vec::new(self.alloc),
        }
    }

    /// Keeps the vector for reuse. Drops it if the pool cannot grow.
    pub fn keep_replies(&mut self, replies: Vec<Reply>) {
        if let Err(_) = self.replies.push(replies) {}
    }

    /// The vectors for the keys of a batch and for the starts of its groups, with stale content.
    pub fn take_keys(&mut self) -> (Vec<u32>, Vec<u32>) {
        (
            mem::replace(&mut self.keys, Vec::new(self.alloc)),
            mem::replace(&mut self.starts, Vec::new(self.alloc)),
        )
    }

    /// Keeps the two vectors for reuse.
    pub fn keep_keys(&mut self, keys: Vec<u32>, starts: Vec<u32>) {
        self.keys = keys;
        self.starts = starts;
    }

    /// The vector for the groups of the calls, with stale content.
    pub fn take_groups(&mut self) -> Vec<usize> {
        mem::replace(&mut self.groups, Vec::new(self.alloc))
    }

    /// Keeps the vector for reuse.
    pub fn keep_groups(&mut self, groups: Vec<usize>) {
        self.groups = groups;
    }
}
