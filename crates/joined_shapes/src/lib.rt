//! Shapes that are put together leaf by leaf.
//!
//! [`OpenBlocks`] takes the leaves of a job from left to right, in blocks that are opened and closed: the items of a
//! block run in series or in parallel, and each closed block is one item of the block around it. It tells which leaves
//! are before whatever is added next, and joins all items to one shape at the end. What has to be undone where memory
//! runs out is never done: the shapes are joined in one pass, when the shape is asked for.
#![tactic(auto)]

mod joiner;
pub mod laws;
pub mod open_blocks;

pub use job_lang::join::Order;
pub use open_blocks::OpenBlocks;
