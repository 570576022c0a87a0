//! The contents of a table's slots: one record slot for each worker, then the shop's and the book's.

use batch_history::ReservedHistory;
use core_model::Receipt;
use launch_batch::Shop;
use seq_objects::Op;

/// A posted call: the number of the calling leaf, and the leaf's operation.
#[derive(Clone, Copy)]
pub struct OpRecord {
    pub leaf: u32,
    pub op: Op,
}

/// The content of a slot. A record slot holds `Vacant`, a posted `Record` or the `Receipt` that answers it.
#[derive(Drop)]
pub enum Slot {
    Vacant,
    Record(OpRecord),
    Receipt(Receipt),
    Shop(Shop),
    Book(ReservedHistory),
}
