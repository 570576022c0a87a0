//! The workers' lists of ready nodes.
ghost use Rattle.std.specs.Prelude.{◌≡◌, ◌<◌, ℕ, [], ◌∷◌, ◌++◌, length, replicate, IfOk, IfErr, IsTrue, false, ◌≢◌};
ghost use Rattle.core_model.specs.State.{put, opening_core};
ghost use Rattle.core_model.specs.Lists.{without, times};
ghost use Rattle.ready_lists.specs.Places.{at};
ghost use Rattle.ready_lists.specs.Ends.{IsAtEnd, IsAtOneEnd};

use crate::list::ReadyList;
use std::alloc::{AllocError, Global};
use std::marker::Model;

/// A list of ready nodes for each worker. The count of non-empty lists tells an idle worker in constant time that
/// nothing can be claimed. Contracts see the lists.
#[derive(Drop)]
pub struct ReadyLists {
    lists: Vec<ReadyList>,
    /// The number of non-empty lists.
    non_empty: usize,
}

impl Model for ReadyLists {
    ghost use Rattle.std.specs.Prelude.{ℕ, List, ◌≡◌};
    ghost use Rattle.ready_lists.specs.Code.NonEmpty.{non_empty_in};

    ghost Value = { List (List ℕ) };

    ghost view = { λ r. r.lists.items };

    ghost invariant = { λ r. r.non_empty ≡ non_empty_in r.lists.items };
}

impl ReadyLists {
    /// `workers` empty lists.
    fn empty(alloc: Global, workers: u32) -> Result<ReadyLists, AllocError>
        ensures { IfOk result (λ lists. lists ≡ replicate workers []) }
    {
        let mut lists = Vec::new(alloc);
        for worker in 0..workers {
            lists.push(ReadyList::new(alloc))?;
        }
        Ok(ReadyLists {
            lists,
            non_empty: 0,
        })
    }

    /// The opening lists: worker 0 has the root, node 0, and the others have nothing.
    pub fn opening(alloc: Global, workers: u32) -> Result<ReadyLists, AllocError>
        requires { 0 < workers }
        ensures len { IfOk result (λ lists. length lists ≡ workers) }
        ensures lists { IfOk result (λ lists. at lists [] ≡ opening_core.ready) }
    {
        let mut lists = ReadyLists::empty(alloc, workers)?;
        lists.push(0, 0)?;
        Ok(lists)
    }

    /// A worker's ready nodes, oldest first. A number that is no worker's has none.
    ///
    /// Memory: none.
    pub fn of(&self, worker: u32) -> &[u32]
        ensures { result.now ≡ at self.now [] worker }
    {
        match self.lists.get(worker as usize) {
            Some(list) => list.as_slice(),
            None => &[],
        }
    }

    /// Whether all lists are empty.
    pub fn are_empty(&self) -> bool
        ensures { IsTrue result → (worker : ℕ) → at self.now [] worker ≡ [] }
    {
        self.non_empty == 0
    }

    /// Appends a node to a worker's list as its newest.
    pub fn push(&mut self, worker: u32, node: u32) -> Result<(), AllocError>
        requires { worker < length self.old }
        ensures len { length self.new ≡ length self.old }
        ensures lists { IfOk result (λ _. at self.new []
            ≡ put (at self.old []) worker (at self.old [] worker ++ node ∷ [])) }
        ensures unchanged { IfErr result (λ _. at self.new [] ≡ at self.old []) }
    {
        let list = &mut self.lists[worker as usize];
        let before = list.one_if_non_empty();
        list.push(node)?;
        self.non_empty = self.non_empty - before + list.one_if_non_empty();
        Ok(())
    }

    /// Removes a node from one worker's list if it is there. Returns whether it was.
    fn remove_from(&mut self, worker: usize, node: u32) -> bool
        requires worker_in { worker < length self.old }
        requires at_end { IsAtEnd node (at self.old [] worker) }
        ensures len { length self.new ≡ length self.old }
        ensures lists { at self.new []
            ≡ put (at self.old []) worker (without node (at self.old [] worker)) }
        ensures found { IsTrue result → times node (at self.old [] worker) ≢ 0 }
        ensures absent { result ≡ false → times node (at self.old [] worker) ≡ 0 }
    {
        let list = &mut self.lists[worker];
        let found = list.remove(node);
        if found {
            self.non_empty = self.non_empty - 1 + list.one_if_non_empty();
        }
        found
    }

    /// Removes a node that is in at most one list, once and at an end. The list of `worker` is tried first, then all
    /// lists in order until the node is found.
    pub fn remove(&mut self, worker: u32, node: u32)
        requires worker_in { worker < length self.old }
        requires at_end { IsAtOneEnd node (at self.old []) }
        ensures len { length self.new ≡ length self.old }
        ensures lists { at self.new [] ≡ λ v. without node (at self.old [] v) }
    {
        if self.remove_from(worker as usize, node) {
            return;
        }
        for other in 0..self.lists.len() {
            if self.remove_from(other, node) {
                return;
            }
        }
    }
}
