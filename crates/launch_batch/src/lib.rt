//! One batch over any number of structures of several kinds.
//!
//! A `Shop` holds the structures of each kind, each made at its first call, and the history of the batches that
//! they served. `Shop::begin` takes the calls of a batch and returns its pieces. Any thread may run a piece by
//! `run_piece`, in any order. `Opened::end` returns the shop, its history extended by this batch, and the batch's
//! entries, whose replies are those of serving the calls one after another in batch order. `laws` states that the
//! pieces may run in any order, and that the calls and the book before them determine the batch. The crate combines the
//! laws of batches of the structures by `object_rows`, and builds on `batch_history`.
#![tactic(auto)]

mod commit;
mod entries;
mod kind;
pub mod laws;
pub mod opened;
mod order;
mod outs;
pub mod piece;
pub mod row;
mod sending;
mod serving;
pub mod shop;
pub mod spare;
pub mod structures;

pub use opened::Opened;
pub use piece::{PieceIn, PieceOut, run_piece};
pub use row::RowOf;
pub use serving::serve;
pub use shop::Shop;
pub use spare::Spare;
pub use structures::Structures;
