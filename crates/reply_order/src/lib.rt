//! Putting the replies to a batch back into the order of its calls.
//!
//! A structure serves the calls of a batch in an order of its own, in which their replies come. `in_call_order` puts
//! them into the order in which the calls were asked. The crate depends on std alone.
#![tactic(auto)]

pub mod laws;
pub mod order;

pub use order::in_call_order;
