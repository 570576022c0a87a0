//! A set of numbers whose calls carry up to `MOST_BULK_KEYS` keys each, served in batches by ranges of keys, which
//! threads may share.
//!
//! `BulkSet` is seen as the list of its keys. A batch is answered as if its calls had come one after another, finds
//! first, and each call's keys one directly after another, in however many threads it is served. The distinct keys of
//! all calls are cut into groups. Each piece of a batch has the range of the set of one group, and serves the keys of
//! all calls in it. Each answer is put back in its call's place. No operation changes its place in the order for that:
//! an operation touches what stands at its key alone, so the ranges can be served apart, as `keyed_pieces` says. The
//! set is a forest, cut and joined by `forest_cuts`; `piece_threads` runs the pieces, or a caller runs them itself between
//! `BulkSet::begin` and `BulkSet::end`.
#![tactic(auto)]

mod begin;
mod call;
mod end;
mod groups;
mod op;
mod order;
mod piece;
mod replies;
mod serve;
mod set;

pub use call::BulkCall;
pub use op::{BulkKind, BulkOp};
pub use order::in_batch_order;
pub use piece::{Piece, Rest, Served};
pub use replies::Replies;
pub use set::BulkSet;
