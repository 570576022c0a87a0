//! The structures of one kind, told apart by their numbers, which serve a batch together.
//!
//! A `Row` has a structure for each number that some batch has called: it is made at its first call. `open_row` opens
//! those that a batch calls, each for its own calls, and puts their pieces into rows: those that are at one place of
//! their lists go together, in the order of the numbers. `run_all` runs the pieces of a place. `close_row` deals the
//! outs back, ends each structure, and returns the replies in the order of the calls: those of serving the calls one
//! after another. `serve_row` does all of it on one thread. The crate stands on `Batched` alone, and on no structure.
#![tactic(auto)]

pub mod by_number;
pub mod close;
mod dealt;
pub mod fresh;
pub mod members;
pub mod open;
mod replies;
pub mod row;
pub mod row_list;
mod rows;
pub mod run;
pub mod serve;

pub use by_number::ByNumber;
pub use fresh::Fresh;
pub use members::Members;
pub use row::{Called, Row};
pub use row_list::RowList;
