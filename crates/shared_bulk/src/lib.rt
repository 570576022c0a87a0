//! A set whose calls carry many keys, which threads share, and whose large batches the callers that wait help to serve.
//!
//! `SharedBulkSetInPieces` has the calls of `SharedBulkSet` of `shared_collections`, with the same clauses. A batch that has
//! enough keys is cut by `bulk_calls` into pieces, each of one range of the set; by `shared_pieces` its caller posts them on
//! a board, and callers that wait run them. A smaller batch is served by its caller alone. Whoever ran the pieces, each
//! call stands as if it were alone.
#![tactic(auto)]

pub mod bulk;
pub mod laws;
pub mod shared_set;

pub use bulk::{BatchRest, BulkInPieces};
pub use shared_set::{CallerWithDesk, SharedBulkSetInPieces};
