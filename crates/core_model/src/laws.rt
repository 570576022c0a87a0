//! The laws of the core model. Each is the contract of an empty function.

pub mod book;
pub mod invariant;
pub mod report;
pub mod run;
pub mod stopped;
pub mod turn;
pub mod wait;
