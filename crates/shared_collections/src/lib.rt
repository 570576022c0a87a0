//! Collections that threads share, each with calls of its own.
//!
//! `SharedFifo` is a FIFO queue, `SharedMap` a map with rank and select, and `SharedBulkSet` a set whose calls carry many
//! keys. A collection is shared by `shared_calls`: each thread has a caller, and a call stands as if it were alone. The
//! calls that are served together are put into the order of a batch of `batched_queue`, `batched_map` or `bulk_calls`,
//! which serves them, and `reply_order` puts the replies back.
#![tactic(auto)]

pub mod bulk;
pub mod fifo;
pub mod laws;
mod numbers;
pub mod ranked;
pub mod shared_bulk;
pub mod shared_fifo;
pub mod shared_map;

pub use bulk::Bulk;
pub use fifo::{Fifo, FifoOp, FifoReply};
pub use ranked::{RankedMap, RankedOp, RankedReply};
pub use shared_bulk::SharedBulkSet;
pub use shared_fifo::SharedFifo;
pub use shared_map::SharedMap;
