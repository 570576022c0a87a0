//! The objects that the leaves of a job name, and their numbers.
//!
//! A leaf may call an object by its kind and name. [`number_objects`] gives each such object a number above 0, in the order in
//! which the leaves first name them, as a job has it; the object of each kind without a name has the number 0.
#![tactic(auto)]

pub mod objects;

pub use objects::{Numbered, Object, number_objects};
