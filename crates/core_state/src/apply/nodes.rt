//! The writes of the events of leaves and blocks: claim, start, open, keep, end, finish and arrive.
ghost use Rattle.std.specs.Prelude.{◌≡◌, ◌<◌, ◌+◌, ◌^◌, length, Some, ◌++◌, ◌∷◌, [], IfOk};
ghost use Rattle.core_model.specs.State.{put};
ghost use Rattle.core_state.specs.Abstraction.{state_of, ready_of};
ghost use Rattle.core_state.specs.Code.Sizes.{SameSizes};
ghost use Rattle.core_model.specs.Events.{task_after as next_task};
ghost use Rattle.core_model.specs.declared.progress.Progress.TheVariants.{Done, Ran, Ready, Taken};
ghost use Rattle.core_model.specs.declared.task.Task.TheVariants.{Started, Kept, Ended, Run};
ghost use Rattle.core_model.specs.declared.status.CallState.TheVariants.{NotCalled};
ghost use Rattle.ready_lists.specs.Ends.{IsAtOneEnd};
ghost use Rattle.core_model.specs.Lists.{without};

use crate::state::State;
use core_model::{CallState, Progress, Task};
use std::alloc::AllocError;

/// The task after a node is done: `Idle` after the root, which is node 0, else `Whole`.
fn task_after(node: u32) -> Task
    ensures { result ≡ next_task node }
{
    if node == 0 {
        Task::Idle
    } else {
        Task::Whole(node)
    }
}

impl State {
    /// `Claim`: the worker takes a ready node from an end of some list.
    #[tactic(auto, using(ready_lists::proofs::PlaceLemmas::Written::at_written), unfolding(crate::specs::Abstraction::state_of, crate::specs::Abstraction::ready_of))]
    #[inline(always)]
    pub(crate) fn claim(&mut self, worker: u32, node: u32)
        requires worker_in { worker < length self.old.tasks.items }
        requires node_in { node < length self.old.nodes.items }
        requires ready_in { worker < length self.old.ready }
        requires at_end { IsAtOneEnd node (ready_of self.old) }
        ensures sizes { SameSizes self.old self.new }
        ensures event { state_of self.new ≡ record (state_of self.old) {
          node = put (state_of self.old).node node Taken;
          task = put (state_of self.old).task worker (Run node);
        } }
        ensures lists { ready_of self.new ≡ λ v. without node (ready_of self.old v) }
    {
        self.ready.remove(worker, node);
        self.nodes[node as usize] = Progress::Taken;
        self.tasks[worker as usize] = Task::Run(node);
    }

    /// The four open events: a side becomes ready at the newest end of the worker's list. `then` is the worker's next
    /// task.
    #[tactic(auto, using(ready_lists::proofs::PlaceLemmas::Written::at_written), unfolding(crate::specs::Abstraction::state_of, crate::specs::Abstraction::ready_of))]
    pub(crate) fn open(&mut self, worker: u32, node: u32, then: Task) -> Result<(), AllocError>
        requires worker_in { worker < length self.old.tasks.items }
        requires node_in { node < length self.old.nodes.items }
        requires ready_in { worker < length self.old.ready }
        ensures sizes { IfOk result (λ _. SameSizes self.old self.new) }
        ensures event { IfOk result (λ _. state_of self.new ≡ record (state_of self.old) {
          node = put (state_of self.old).node node Ready;
          task = put (state_of self.old).task worker then;
        }) }
        ensures lists { IfOk result (λ _. ready_of self.new
            ≡ put (ready_of self.old) worker (ready_of self.old worker ++ node ∷ [])) }
    {
        self.ready.push(worker, node)?;
        self.nodes[node as usize] = Progress::Ready;
        self.tasks[worker as usize] = then;
        Ok(())
    }

    /// `Start`: the worker starts a leaf and draws a tick.
    #[tactic(auto, using(ready_lists::proofs::PlaceLemmas::Written::at_written), unfolding(crate::specs::Abstraction::state_of, crate::specs::Abstraction::ready_of))]
    pub(crate) fn start(&mut self, worker: u32, node: u32)
        requires worker_in { worker < length self.old.tasks.items }
        requires room { self.old.tick + 1 < 2 ^ 64 }
        ensures sizes { SameSizes self.old self.new }
        ensures event { state_of self.new ≡ record (state_of self.old) {
          tick = (state_of self.old).tick + 1;
          task = put (state_of self.old).task worker (Started node (state_of self.old).tick);
        } }
        ensures lists { ready_of self.new ≡ ready_of self.old }
    {
        self.tasks[worker as usize] = Task::Started {
            node,
            start: self.tick,
        };
        self.tick += 1;
    }

    /// `Keep`: the leaf's value is stored, and the worker's call state is reset.
    #[tactic(auto, using(ready_lists::proofs::PlaceLemmas::Written::at_written), unfolding(crate::specs::Abstraction::state_of, crate::specs::Abstraction::ready_of))]
    pub(crate) fn keep(&mut self, worker: u32, node: u32, start: u64, value: u64)
        requires worker_in { worker < length self.old.tasks.items }
        requires call_in { worker < length self.old.calls.items }
        requires node_in { node < length self.old.values.items }
        ensures sizes { SameSizes self.old self.new }
        ensures event { state_of self.new ≡ record (state_of self.old) {
          value = put (state_of self.old).value node (Some value);
          call = put (state_of self.old).call worker NotCalled;
          task = put (state_of self.old).task worker (Kept node start);
        } }
        ensures lists { ready_of self.new ≡ ready_of self.old }
    {
        self.values[node as usize] = Some(value);
        self.calls[worker as usize] = CallState::NotCalled;
        self.tasks[worker as usize] = Task::Kept { node, start };
    }

    /// `End`: the worker ends its leaf and draws a tick.
    #[tactic(auto, using(ready_lists::proofs::PlaceLemmas::Written::at_written), unfolding(crate::specs::Abstraction::state_of, crate::specs::Abstraction::ready_of))]
    pub(crate) fn end(&mut self, worker: u32, node: u32, start: u64)
        requires worker_in { worker < length self.old.tasks.items }
        requires room { self.old.tick + 1 < 2 ^ 64 }
        ensures sizes { SameSizes self.old self.new }
        ensures event { state_of self.new ≡ record (state_of self.old) {
          tick = (state_of self.old).tick + 1;
          task = put (state_of self.old).task worker (Ended node start (state_of self.old).tick);
        } }
        ensures lists { ready_of self.new ≡ ready_of self.old }
    {
        self.tasks[worker as usize] = Task::Ended {
            node,
            start,
            end: self.tick,
        };
        self.tick += 1;
    }

    /// `FinishLeaf`: the leaf is done, with its worker and its two ticks.
    #[tactic(auto, using(ready_lists::proofs::PlaceLemmas::Written::at_written), unfolding(crate::specs::Abstraction::state_of, crate::specs::Abstraction::ready_of))]
    pub(crate) fn finish_leaf(&mut self, worker: u32, node: u32, start: u64, end: u64)
        requires worker_in { worker < length self.old.tasks.items }
        requires node_in { node < length self.old.nodes.items }
        ensures sizes { SameSizes self.old self.new }
        ensures event { state_of self.new ≡ record (state_of self.old) {
          node = put (state_of self.old).node node (Ran worker start end);
          task = put (state_of self.old).task worker (next_task node);
        } }
        ensures lists { ready_of self.new ≡ ready_of self.old }
    {
        self.nodes[node as usize] = Progress::Ran { worker, start, end };
        self.tasks[worker as usize] = task_after(node);
    }

    /// `FinishSeq` and `FinishPar`: the block `node` is done.
    #[tactic(auto, using(ready_lists::proofs::PlaceLemmas::Written::at_written), unfolding(crate::specs::Abstraction::state_of, crate::specs::Abstraction::ready_of))]
    pub(crate) fn finish_block(&mut self, worker: u32, node: u32)
        requires worker_in { worker < length self.old.tasks.items }
        requires node_in { node < length self.old.nodes.items }
        ensures sizes { SameSizes self.old self.new }
        ensures event { state_of self.new ≡ record (state_of self.old) {
          node = put (state_of self.old).node node Done;
          task = put (state_of self.old).task worker (next_task node);
        } }
        ensures lists { ready_of self.new ≡ ready_of self.old }
    {
        self.nodes[node as usize] = Progress::Done;
        self.tasks[worker as usize] = task_after(node);
    }

    /// The two arrive events: a side of the parallel block `node` arrives. `mark` is the number of its sides that have
    /// arrived, this one included, and `then` the worker's next task.
    #[tactic(auto, using(ready_lists::proofs::PlaceLemmas::Written::at_written), unfolding(crate::specs::Abstraction::state_of, crate::specs::Abstraction::ready_of))]
    pub(crate) fn arrive(&mut self, worker: u32, node: u32, mark: u32, then: Task)
        requires worker_in { worker < length self.old.tasks.items }
        requires node_in { node < length self.old.marks.items }
        ensures sizes { SameSizes self.old self.new }
        ensures event { state_of self.new ≡ record (state_of self.old) {
          mark = put (state_of self.old).mark node mark;
          task = put (state_of self.old).task worker then;
        } }
        ensures lists { ready_of self.new ≡ ready_of self.old }
    {
        self.marks[node as usize] = mark;
        self.tasks[worker as usize] = then;
    }
}
