//! One worker's list of ready nodes. It grows at its newest end, and a node is removed at either end.
ghost use Rattle.std.specs.Prelude.{◌≡◌, ◌<◌, ◌≤◌, ◌-◌, [], ◌∷◌, ◌++◌, length, take, drop, OnOk, OnErr, IsTrue, false, ◌↔◌, ◌≢◌};
ghost use Rattle.core_model.specs.Lists.{without, times};
ghost use Rattle.ready_lists.specs.Ends.{IsNewest, IsOldest, IsAtEnd};
ghost use Rattle.ready_lists.specs.Code.NonEmpty.{one_if_non_empty as count_of};

use std::alloc::{AllocError, Global};
use std::marker::Model;

/// One worker's ready nodes, oldest first. Claiming the oldest only advances `first`, and an exhausted list restarts at
/// 0, so a claim at either end takes constant time.
#[derive(Drop)]
pub struct ReadyList {
    items: Vec<u32>,
    /// The index in `items` of the oldest node.
    first: usize,
}

impl Model for ReadyList {
    ghost use Rattle.std.specs.Prelude.{ℕ, List, ◌≤◌, length, drop};

    ghost Value = { List ℕ };

    ghost view = { λ l. drop l.first l.items.items };

    ghost invariant = { λ l. l.first ≤ length l.items.items };
}

/// Clears `items` if all of them are claimed. Returns the index of the oldest node.
fn begin_anew(items: &mut Vec<u32>, first: usize) -> usize
    requires { first ≤ length items.old.items }
    ensures within { result ≤ length items.new.items }
    ensures nodes { drop result items.new.items ≡ drop first items.old.items }
{
    if first < items.len() {
        return first;
    }
    items.clear();
    0
}

impl ReadyList {
    /// An empty list.
    ///
    /// Memory: none.
    pub(crate) fn new(alloc: Global) -> ReadyList
        ensures { result ≡ [] }
    {
        ReadyList {
            items: Vec::new(alloc),
            first: 0,
        }
    }

    /// The nodes, oldest first.
    pub(crate) fn as_slice(&self) -> &[u32]
        ensures { result.now ≡ self.now }
    {
        &self.items[self.first..]
    }

    /// 1 if the list has a node, else 0.
    pub(crate) fn one_if_non_empty(&self) -> usize
        ensures { result ≡ count_of self.now }
    {
        if self.as_slice().is_empty() { 0 } else { 1 }
    }

    /// Appends a node as the newest.
    pub(crate) fn push(&mut self, node: u32) -> Result<(), AllocError>
        ensures done { OnOk result (self.new ≡ self.old ++ node ∷ []) }
        ensures unchanged { OnErr result (self.new ≡ self.old) }
    {
        self.items.push(node)?;
        Ok(())
    }

    /// Whether the list's last node is this one.
    fn is_newest(&self, node: u32) -> bool
        ensures { IsTrue result ↔ IsNewest node self.now }
    {
        match self.as_slice().last() {
            None => false,
            Some(newest) => *newest == node,
        }
    }

    /// Whether the list's first node is this one.
    fn is_oldest(&self, node: u32) -> bool
        ensures { IsTrue result ↔ IsOldest node self.now }
    {
        match self.as_slice().first() {
            None => false,
            Some(oldest) => *oldest == node,
        }
    }

    /// Removes the newest node.
    fn drop_newest(&mut self)
        requires { 0 < length self.old }
        ensures { self.new ≡ take (length self.old - 1) self.old }
    {
        let _ = self.items.pop();
        self.first = begin_anew(&mut self.items, self.first);
    }

    /// Removes the oldest node.
    fn drop_oldest(&mut self)
        requires { 0 < length self.old }
        ensures { self.new ≡ drop 1 self.old }
    {
        self.first = begin_anew(&mut self.items, self.first + 1);
    }

    /// Removes a node that occurs at most once, and then at an end. Returns whether it was there.
    pub(crate) fn remove(&mut self, node: u32) -> bool
        requires { IsAtEnd node self.old }
        ensures list { self.new ≡ without node self.old }
        ensures found { IsTrue result → times node self.old ≢ 0 }
        ensures absent { result ≡ false → times node self.old ≡ 0 }
    {
        if self.is_newest(node) {
            self.drop_newest();
            return true;
        }
        if self.is_oldest(node) {
            self.drop_oldest();
            return true;
        }
        false
    }
}
