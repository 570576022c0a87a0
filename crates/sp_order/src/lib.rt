//! Series-parallel jobs: how the leaves of a job are composed, and which leaf is before which.
//!
//! This crate defines the precedence of leaves, over which a report's promise is stated: each leaf ran after all leaves
//! before it. It stands on `seq_objects`, which defines what a leaf does.
#![tactic(auto)]

pub mod job;
pub mod laws;
pub mod node;
pub mod object_laws;
mod objects;
pub mod plan;
pub mod planned;
pub mod shape;
pub mod sources;

pub use job::Job;
pub use node::{Kind, Move};
pub use plan::Plan;
pub use planned::PlannedJob;
pub use shape::Shape;
pub use sources::{low_bits, with_value};
