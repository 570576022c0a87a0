//! An ordered map with rank and select, which serves a batch of calls in ranges of keys.
//!
//! `RankBook` is seen as the list of its entries, whose keys ascend. A batch is answered as if its calls had come one
//! after another, in however many threads it is served. The keys of a batch are cut into groups, and the map's tree is
//! cut at the least key of each group but the first; each piece of a batch works on one of these ranges. The rank of a
//! key is its rank in its range plus the number of keys before that range, and the key at an index is looked up in the
//! range in which the index falls. `laws` says that serving batch by batch is serving all calls one after another, and
//! that batch order has each call once. The crate stands on `rank_tree`, whose subtrees move whole at a cut, on
//! `keyed_pieces`, which has the laws of operations that are served range by range, on `piece_threads`, which runs the
//! pieces, and on `seq_objects`, whose replies it answers.
#![tactic(auto)]

mod begin;
mod book;
mod call;
mod end;
pub mod laws;
mod order;
mod piece;
mod serve;

pub use book::RankBook;
pub use call::{MapCall, MapOp};
pub use order::in_batch_order;
