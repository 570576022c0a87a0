//! The words of calls, as jobs and reports write them: the kind and the name of an object, the verb, and the argument.
//!
//! It stands on `seq_objects`, whose table has the words, and on `job_names`, for the names of objects.
#![tactic(auto)]

pub mod words;

pub use words::{push_argument, push_call, push_op};
