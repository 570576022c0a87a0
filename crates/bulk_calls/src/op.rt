//! What a call does with its keys.
ghost use Rattle.std.specs.Prelude.{◌≡◌, ◌<◌, ◌≤◌, ◌++◌, ◌∷◌, [], length};
ghost use Rattle.limits.specs.declared.TheConstants.{MOST_BULK_KEYS};

use limits::MOST_BULK_KEYS;
use std::marker::Model;

/// What is done with each key of a call.
#[derive(Clone, Copy)]
pub enum BulkKind {
    Insert,
    Remove,
    Find,
}

/// One kind of operation, done with up to `MOST_BULK_KEYS` keys one after another. Contracts see its kind and the list
/// of its keys.
///
/// The keys are the first `count` of `keys`. A value takes no memory from an allocator.
#[derive(Drop)]
pub struct BulkOp {
    pub kind: BulkKind,
    pub keys: [u32; MOST_BULK_KEYS],
    pub count: u32,
}

impl Model for BulkOp {
    ghost use Rattle.std.specs.Prelude.{take, ◌≤◌};
    ghost use Rattle.bulk_calls.specs.Views.{BulkView};
    ghost use Rattle.limits.specs.declared.TheConstants.{MOST_BULK_KEYS};

    ghost Value = { BulkView };

    ghost view = { λ op. record { kind = op.kind; keys = take op.count op.keys } };

    ghost invariant = { λ op. op.count ≤ MOST_BULK_KEYS };
}

impl BulkOp {
    /// An operation without keys yet.
    ///
    /// Memory: none.
    pub fn new(kind: BulkKind) -> BulkOp
        ensures kind { result.kind ≡ kind }
        ensures keys { result.keys ≡ [] }
    {
        BulkOp {
            kind,
            keys: [0; MOST_BULK_KEYS],
            count: 0,
        }
    }

    /// Appends a key.
    ///
    /// Memory: none.
    pub fn push(&mut self, key: u32)
        requires { length self.old.keys < MOST_BULK_KEYS }
        ensures kind { self.new.kind ≡ self.old.kind }
        ensures keys { self.new.keys ≡ self.old.keys ++ key ∷ [] }
    {
        self.keys[self.count as usize] = key;
        self.count += 1;
    }

    /// A copy.
    ///
    /// Memory: none.
    pub(crate) fn copied(&self) -> BulkOp
        ensures { result ≡ self.now }
    {
        BulkOp {
            kind: self.kind,
            keys: self.keys,
            count: self.count,
        }
    }

    /// What is done with the keys.
    pub fn kind(&self) -> BulkKind
        ensures { result ≡ self.now.kind }
    {
        self.kind
    }

    /// The keys.
    pub fn keys(&self) -> &[u32]
        ensures keys { result.now ≡ self.now.keys }
        ensures few { length result.now ≤ MOST_BULK_KEYS }
    {
        &self.keys[..self.count as usize]
    }
}
