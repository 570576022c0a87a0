//! The opening state of a run.
ghost use Rattle.std.specs.Prelude.{◌≡◌, ◌<◌, length, IfOk, replicate};
ghost use Rattle.core_model.specs.State.{opening_state, opening_core};
ghost use Rattle.core_state.specs.Places.{at};
ghost use Rattle.core_state.specs.Abstraction.{state_of, ready_of};
ghost use Rattle.core_state.specs.Code.Sizes.{HasShop, Sizes};
ghost use Rattle.core_model.specs.declared.progress.Progress.TheVariants.{Waiting};

use crate::state::State;
use core_model::{CallState, Progress, Status, Task};
use launch_batch::Shop;
use ready_lists::ReadyLists;
use std::alloc::{AllocError, Global};

/// A list of `count` copies of an item.
fn copies<T: Copy>(alloc: Global, item: T, count: u32) -> Result<Vec<T>, AllocError>
    ensures { IfOk result (λ v. v.items ≡ replicate count item) }
{
    let mut items = Vec::with_capacity(alloc, count as usize)?;
    for k in 0..count {
        items.push(item)?;
    }
    Ok(items)
}

/// The opening progress: the root is ready and all other nodes wait.
fn opening_nodes(alloc: Global, nodes: u32) -> Result<Vec<Progress>, AllocError>
    requires { 0 < nodes }
    ensures len { IfOk result (λ v. length v.items ≡ nodes) }
    ensures items { IfOk result (λ v. at v.items Waiting ≡ opening_state.node) }
{
    let mut progress = copies(alloc, Progress::Waiting, nodes)?;
    progress[0] = Progress::Ready;
    Ok(progress)
}

impl State {
    /// The opening state: the root is in worker 0's list, and nothing has happened.
    pub fn opening(alloc: Global, nodes: u32, workers: u32) -> Result<State, AllocError>
        requires nodes { 0 < nodes }
        requires workers { 0 < workers }
        ensures sizes { IfOk result (λ t. Sizes t nodes workers) }
        ensures state { IfOk result (λ t. state_of t ≡ opening_state) }
        ensures lists { IfOk result (λ t. ready_of t ≡ opening_core.ready) }
        ensures shop { IfOk result HasShop }
    {
        Ok(State {
            nodes: opening_nodes(alloc, nodes)?,
            marks: copies(alloc, 0, nodes)?,
            values: copies(alloc, None, nodes)?,
            tasks: copies(alloc, Task::Idle, workers)?,
            statuses: copies(alloc, Status::Free, workers)?,
            calls: copies(alloc, CallState::NotCalled, workers)?,
            ready: ReadyLists::opening(alloc, workers)?,
            hold: None,
            tick: 0,
            shop: Some(Shop::new(alloc)?),
            last_calls: Vec::new(alloc),
        })
    }
}
