//! Pauses for tests: they hold two workers of a run until both stand where the test wants them at one time.
//!
//! Each is a `Pause` of `run_points`. A worker that waits in vain is let go after a bounded number of looks, and the
//! pause then says that the meeting was not kept. So a test ends whatever the workers do.
#![tactic(auto)]

mod meeting;
mod pauses;

pub use meeting::Meeting;
pub use pauses::{AtCalls, AtPieces, AtPosts, AtStarts, AtWin};
