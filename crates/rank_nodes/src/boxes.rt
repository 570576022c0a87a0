//! Spare boxes for nodes.
ghost use Rattle.std.specs.Prelude.{◌≤◌, length, OnOk};

use crate::node::{Node, empty_node};
use std::alloc::{AllocError, Global};

/// Unused node boxes. Their contents do not affect the entries of any tree.
#[derive(Drop)]
pub struct Boxes {
    pub nodes: Vec<Box<Node>>,
    pub alloc: Global,
}

impl Boxes {
    /// A store without boxes.
    ///
    /// Memory: none.
    #[inline]
    pub fn new(alloc: Global) -> Boxes {
        Boxes {
            nodes: Vec::new(alloc),
            alloc,
        }
    }

    /// Keeps a node's box for reuse. The box is freed if the store cannot grow.
    #[inline]
    pub fn give(&mut self, node: Box<Node>) {
        if let Err(_) = self.nodes.push(node) {}
    }

    /// Allocates boxes until the store has at least `count`.
    #[inline]
    pub fn hold(&mut self, count: u64) -> Result<(), AllocError>
        ensures { OnOk result (count ≤ length self.new.nodes.items) }
    {
        while (self.nodes.len() as u64) < count {
            let node = Box::new(self.alloc, empty_node())?;
            self.nodes.push(node)?;
        }
        Ok(())
    }
}
