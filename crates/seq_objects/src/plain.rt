//! The sequential implementation of the shared objects.
ghost use Rattle.std.specs.Prelude.{◌≡◌, IfOk, OnOk, OnErr, IsOk};
ghost use Rattle.seq_objects.specs.Stores.{opening_store, store_after, store_reply, StoreCanServe, TakesNoMemory};
ghost use Rattle.seq_objects.specs.Kept.{store_in};

use crate::op::Op;
use crate::reply::Reply;
use crate::slot::Slot;
use std::alloc::{AllocError, Global};
use std::collections::BTreeMap;

/// All shared objects, which serve one operation at a time. Contracts see them as a `Store`, by `store_in`. The objects
/// of a number above 0 are kept from the first operation on that may change them.
#[derive(Drop)]
pub struct Plain {
    alloc: Global,
    first: Slot,
    others: BTreeMap<u32, Slot>,
}

impl Plain {
    /// The objects at the opening: the counters are 0, and the others are empty.
    ///
    /// Memory: none.
    pub fn new(alloc: Global) -> Plain
        ensures { store_in result ≡ opening_store }
    {
        Plain {
            alloc,
            first: Slot::new(alloc),
            others: BTreeMap::new(alloc),
        }
    }

    /// Serves one operation.
    ///
    /// Memory: for an item that is put in, and for the objects of a number above 0 at the first operation that may change
    /// them.
    pub fn serve(&mut self, op: Op) -> Result<Reply, AllocError>
        requires { StoreCanServe (store_in self.old) op }
        ensures reply { IfOk result (λ reply. reply ≡ store_reply (store_in self.old) op) }
        ensures after { OnOk result (store_in self.new ≡ store_after (store_in self.old) op) }
        ensures err { OnErr result (store_in self.new ≡ store_in self.old) }
        ensures sure { TakesNoMemory (store_in self.old) op → IsOk result }
    {
        let number = op.number();
        if number == 0 {
            return self.first.serve(op);
        }
        if let Some(objects) = self.others.get_mut(&number) {
            return objects.serve(op);
        }
        let mut objects = Slot::new(self.alloc);
        let reply = objects.serve(op)?;
        if !op.inserts_nothing() {
            self.others.insert(number, objects)?;
        }
        Ok(reply)
    }
}
