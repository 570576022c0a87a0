//! Byte input and output: the traits `Shelf` (named files) and `Sink`.
//!
//! Every layer above does its input and output through `Shelf` and `Sink`, so its contracts can state which bytes
//! were read and written. Each object counts its faults, and a failed call raises that count (unless it is
//! saturated). The crate depends on std alone.
#![tactic(auto)]

mod fault_plan;
pub mod mem_shelf;
pub mod mem_sink;
pub mod shelf;
pub mod sink;
pub mod std_shelf;
pub mod std_sink;

pub use mem_shelf::MemShelf;
pub use mem_sink::MemSink;
pub use shelf::{ReadErr, Shelf, read_up_to};
pub use sink::{Sink, write_all};
pub use std_shelf::StdShelf;
pub use std_sink::StdSink;

/// The error of a failed `choose`, `read` or `write`.
#[derive(Clone, Copy)]
pub struct Failed;
