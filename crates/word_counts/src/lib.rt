//! The words of a text, counted by threads that share one map.
//!
//! `count_in_threads` cuts a text into parts, one for each thread. A thread reads its part, and calls the shared map for
//! each word. The counts are those of one thread that counts all words, one after another. The map is shared by
//! `shared_calls`; its operations are words, and the state that they lead to does not depend on their order.
#![tactic(auto)]

pub mod count;
pub mod counts;
pub mod laws;
pub mod parts;

pub use count::count_in_threads;
pub use counts::WordCounts;
