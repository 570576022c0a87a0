//! The deques as all workers share them.
ghost use Rattle.std.specs.Prelude.{◌≡◌, length};

mod calls;
mod opening;

use crate::rule::{DequeRule, Part};
use crate::spot::Spot;
use crossbeam_deque::Stealer;
use std::alloc::Global;

/// The deques of all workers, one of ready nodes and one of pieces each. They store the allocator, so no call of a worker
/// takes it as an argument.
#[derive(Drop)]
pub struct Decks {
    pub(crate) core: Vec<Stealer<u32, Global, Part<u32>, DequeRule>>,
    pub(crate) batch: Vec<Stealer<Spot, Global, Part<Spot>, DequeRule>>,
    pub(crate) core_room: u32,
    pub(crate) batch_room: u32,
    ghost alike: { length batch.items ≡ length core.items },
}
