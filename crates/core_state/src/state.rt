//! The stored state of a core.

ghost use Rattle.std.specs.Prelude.{◌≡◌, ◌<◌, length, IsSome};
ghost use Rattle.core_state.specs.Abstraction.{book_of, state_of};
ghost use Rattle.core_model.specs.Tasks.{is_done as node_done};

mod opening;

use crate::hold::Hold;
use batch_history::History;
use core_model::{CallState, Progress, Status, Task};
use launch_batch::Shop;
use ready_lists::ReadyLists;
use seq_objects::Call;

/// The state of a core. `nodes`, `marks` and `values` are indexed by node; `tasks`, `statuses`, `calls` and `ready` by
/// worker.
#[derive(Drop)]
pub struct State {
    /// The progress of each node.
    pub nodes: Vec<Progress>,
    /// The number of sides that have arrived at each parallel block, 0 to 2.
    pub marks: Vec<u32>,
    /// The value of each leaf that has kept one.
    pub values: Vec<Option<u64>>,
    /// The task of each worker.
    pub tasks: Vec<Task>,
    /// The status of each worker, by its call.
    pub statuses: Vec<Status>,
    /// What each worker knows of the call of the leaf that it has started.
    pub calls: Vec<CallState>,
    /// The ready nodes of each worker, oldest first.
    pub ready: ReadyLists,
    /// The hold of the flag's owner, `None` while the flag is free.
    pub hold: Option<Hold>,
    /// The next tick to draw: the number of starts and ends of leaves so far.
    pub tick: u64,
    /// The shared structures with the batches they have served. `None` after an allocation failed while a batch was
    /// served.
    pub shop: Option<Shop>,
    /// The calls of the last batch. The next one uses their memory.
    pub last_calls: Vec<Call>,
}

/// Whether the progress is `Done` or `Ran`.
fn is_done(progress: Progress) -> bool
    ensures { result ≡ node_done progress }
{
    match progress {
        Progress::Waiting => false,
        Progress::Ready => false,
        Progress::Taken => false,
        Progress::Done => true,
        Progress::Ran { .. } => true,
    }
}

/// The batches that a shop has served. The shop must be present.
pub fn history_of(shop: Option<Shop>) -> History
    requires { IsSome shop }
    ensures { result ≡ book_of shop }
{
    match shop {
        Some(shop) => shop.into_history(),
        None => unreachable!(),
    }
}

impl State {
    /// Whether the root is done.
    #[tactic(auto, unfolding(crate::specs::Abstraction::state_of))]
    pub fn root_done(&self) -> bool
        requires { 0 < length self.now.nodes.items }
        ensures { result ≡ node_done ((state_of self.now).node 0) }
    {
        is_done(self.nodes[0])
    }
}
