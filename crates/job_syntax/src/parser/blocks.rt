//! The stack of open blocks, with the items read so far.
ghost use Rattle.std.specs.Prelude.{◌≡◌, ◌≢◌, ◌↔◌, [], ◌∷◌, Some, OnOk, IsTrue, length};
ghost use Rattle.std.specs.List.{list_any};
ghost use Rattle.job_syntax.specs.Grammar.{is_loop};
ghost use Rattle.job_syntax.specs.Views.{block_kind_of};
ghost use Rattle.job_syntax.specs.Code.Machine.{start, are_looped, given_leaf, with_leaf, after_open, after_close};
ghost use Rattle.job_syntax.specs.Code.Shown.{is_shown, scope_at};

use crate::item::{BlockKind, Item, Leaf};
use job_names::{Name, Scopes};
use std::alloc::{AllocError, Global};
use std::mem;

/// An open block: the items before it, and its head.
#[derive(Drop)]
pub(crate) struct OpenBlock {
    pub(crate) before: Vec<Item>,
    pub(crate) kind: BlockKind,
}

/// The open blocks, the innermost last, the items read so far inside the innermost one, and the lets that are shown
/// there.
#[derive(Drop)]
pub(crate) struct BlockStack {
    alloc: Global,
    blocks: Vec<OpenBlock>,
    items: Vec<Item>,
    scopes: Scopes,
}

fn any_loop(blocks: &[OpenBlock]) -> bool
    ensures { result ≡ list_any (λ block. is_loop (block_kind_of block.kind)) blocks.now }
{
    blocks.iter().any(|block| block.kind.is_loop())
}

impl BlockStack {
    ghost use Rattle.job_syntax.specs.Views.{items_of, leaf_of};
    ghost use Rattle.job_syntax.specs.Code.OpenBlocks.{ShowsLets, view};

    pub(crate) fn new(alloc: Global) -> BlockStack
        ensures view { view result ≡ start }
        ensures shows { ShowsLets result }
    {
        BlockStack {
            alloc,
            blocks: Vec::new(alloc),
            items: Vec::new(alloc),
            scopes: Scopes::new(alloc),
        }
    }

    /// Whether a loop is open.
    #[tactic(auto, using(crate::proofs::ParserLemmas::OpenStacks::are_looped_now))]
    pub(crate) fn is_looped(&self) -> bool
        ensures { result ≡ are_looped (view self.now).blocks }
    {
        any_loop(&self.blocks)
    }

    /// Whether no block is open.
    pub(crate) fn is_outside(&self) -> bool
        ensures { IsTrue result ↔ ((view self.now).blocks ≡ []) }
    {
        self.blocks.is_empty()
    }

    /// The number of open blocks.
    #[tactic(auto, using(crate::proofs::ParserLemmas::OpenStacks::depth_now))]
    pub(crate) fn depth(&self) -> usize
        ensures { result ≡ length (view self.now).blocks }
    {
        self.blocks.len()
    }

    /// Whether a let of the name is shown.
    pub(crate) fn shows(&self, name: Name) -> bool
        requires { ShowsLets self.now }
        ensures { result ≡ is_shown name (scope_at (view self.now).blocks (view self.now).items) }
    {
        self.scopes.look(name).is_some()
    }

    /// Adds a leaf to the innermost block, with the name that is given to its reply, if there is one.
    pub(crate) fn add(&mut self, given: Option<Name>, leaf: Leaf) -> Result<(), AllocError>
        requires { ShowsLets self.old }
        ensures view { OnOk result
            (view self.new
            ≡ with_leaf (view self.old).blocks (view self.old).items (given_leaf given (leaf_of leaf))) }
        ensures shows { OnOk result (ShowsLets self.new) }
    {
        match given {
            Some(name) => {
                self.items.push(Item::Let(name, leaf))?;
                self.scopes.bind(name, 0)?;
            }
            None => self.items.push(Item::Leaf(leaf))?,
        }
        Ok(())
    }

    /// Opens a block.
    #[tactic(auto, using(crate::proofs::ParserLemmas::OpenStacks::blocks_on_push))]
    pub(crate) fn open(&mut self, kind: BlockKind) -> Result<(), AllocError>
        requires { ShowsLets self.old }
        ensures view { OnOk result
            (view self.new ≡ after_open (view self.old).blocks (view self.old).items (block_kind_of kind)) }
        ensures shows { OnOk result (ShowsLets self.new) }
    {
        let before = mem::replace(&mut self.items, Vec::new(self.alloc));
        self.blocks.push(OpenBlock { before, kind })?;
        self.scopes.open(kind.name_kind())?;
        Ok(())
    }

    /// Closes the innermost block. Its items keep no spare room.
    pub(crate) fn close(&mut self) -> Result<(), AllocError>
        requires some { (view self.old).blocks ≢ [] }
        requires shows { ShowsLets self.old }
        ensures view { OnOk result
            (after_close (view self.old).blocks (view self.old).items ≡ Some (view self.new)) }
        ensures shows { OnOk result (ShowsLets self.new) }
    {
        if let Some(OpenBlock { before, kind }) = self.blocks.pop() {
            let mut body = mem::replace(&mut self.items, before);
            body.shrink_to_fit();
            self.items.push(Item::Block(kind, body))?;
            self.scopes.close();
        }
        Ok(())
    }

    /// The items read so far inside the innermost block, or in the text where no block is open.
    pub(crate) fn into_items(self) -> Vec<Item>
        ensures { items_of result.items ≡ (view self).items }
    {
        let BlockStack { items, .. } = self;
        items
    }
}
