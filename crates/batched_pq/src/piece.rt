//! A piece of a batch, its result, and what the queue keeps meanwhile.

use crate::shard::Shard;

/// A shard, its share of a batch's inserts, and the number of takes of the whole batch.
#[derive(Drop)]
pub struct Piece {
    pub shard: Shard,
    pub inserts: Vec<u32>,
    pub takes: usize,
}

/// A piece's shard with its inserts, and a front that suffices for the takes.
pub type Served = Shard;

/// What a queue keeps while its pieces are served: a batch's numbers of inserts and takes.
#[derive(Drop)]
pub struct Rest {
    pub inserts: usize,
    pub takes: usize,
}
