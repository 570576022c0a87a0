//! What a pass does with the nodes of the job, and its looks at the root, the batch count and the stop word.
ghost use Rattle.std.specs.Prelude.{◌≡◌, ◌≢◌, ℕ, ◌+◌, ◌%◌, ◌<◌, ◌≤◌, Some, IsTrue, IsFalse, IsNone};
ghost use Rattle.limits.specs.declared.TheConstants.{MOST_WORKERS};
ghost use Rattle.core_model.specs.declared.next.Next.TheVariants as acts;
ghost use Rattle.core_model.specs.Events.{task_after as next_task};
ghost use Rattle.table_rule.specs.CoreWords.{Event, Task as TaskOf, Idle, Run, Started, Kept, Ended, Handed, Start as StartOf, End as EndOf, ArriveFirst, ArriveSecond};
ghost use Rattle.table_rule.specs.DueActs.{IsTickDue, IsOpenDue, IsSourceDue, IsKeepDueWith, IsFinishDue, IsArriveDue};
ghost use Rattle.table_rule.specs.Tasks.{most_ticks, progress_after};
ghost use Rattle.table_rule.specs.Words.{node_at, stop_at, progress_code};
ghost use Rattle.table_rule.specs.declared.view.Miss.{Miss};
ghost use Rattle.table_rule.specs.Passes.{with_task, claiming, refusing, opening, telling, keeping, finding_stop, finding_none};
ghost use Rattle.table_rule.specs.Views.{with_step, with_miss, with_since, with_stop, seeing_done, seeing_undone};
ghost use Rattle.core_table.specs.Passes.{IsPassOf, IsMissOf, IsMomentIn, job_in, next_in, pass_view, view, IsNotTrapped};

use crate::table::{CoreTable, Pass};
use core_model::{CallState, Next, Task};
use leaf_work::WorkBrand;
use sp_order::laws::plan_stands_for_tree;
use table_rule::plays::{
    Arrive, Claim, ClaimOutOfRange, DrawTick, Finish, Keep, LookAtRoot, LookAtStop, LookAtValue,
    Open, ReadBatchCount, Stop,
};
use table_rule::{CODES, DONE, READY, RanLeaf, TAKEN};

/// The task after its tick is drawn: `Run` becomes `Started`, and `Kept` becomes `Ended`.
fn ticked(task: Task, tick: u64) -> Task
    ensures started { (n : ℕ) → task ≡ Run n → result ≡ Started n tick }
    ensures ended { (n start : ℕ) → task ≡ Kept n start → result ≡ Ended n start tick }
{
    match task {
        Task::Run(node) => Task::Started { node, start: tick },
        Task::Kept { node, start } => Task::Ended {
            node,
            start,
            end: tick,
        },
        other => other,
    }
}

/// The word of a node that this worker's finish with this task marks as done.
fn done_word(worker: u32, task: Task) -> u64
    requires worker { worker < MOST_WORKERS }
    requires ticks { (n start end : ℕ) → task ≡ Ended n start end → (start < most_ticks) × (end < most_ticks) }
    ensures { result ≡ progress_code (progress_after worker task) }
{
    match task {
        Task::Ended { start, end, .. } => RanLeaf { worker, start, end }.encode(),
        _ => DONE,
    }
}

/// The task after a node is finished: `Whole`, or `Idle` after the root (node 0).
fn task_after(node: u32) -> Task
    ensures { result ≡ next_task node }
{
    if node == 0 {
        Task::Idle
    } else {
        Task::Whole(node)
    }
}

impl<B: WorkBrand> CoreTable<B> {
    /// What the pass does next. `None`: its task is idle, or its call is out. Memory: none.
    #[inline(always)]
    pub fn next(&self, pass: &Pass) -> Option<Next>
        requires { IsPassOf self.now pass.now }
        ensures next { result ≡ next_in self.now (pass_view pass.now) }
        ensures idle { IsNotTrapped pass.now → IsNone result → (view pass.now).own.task ≡ Idle }
    {
        self.laws_hold();
        plan_stands_for_tree();
        self.setting.next(pass.task, pass.call)
    }

    /// Claims the node if it is ready. A number past the last node is refused, at the cost of one step on word 0.
    pub fn claim(&self, pass: &mut Pass, node: u32) -> bool
        requires pass { IsPassOf self.now pass.old }
        requires free { IsNotTrapped pass.old }
        requires idle { (view pass.old).own.task ≡ Idle }
        ensures pass { IsPassOf self.now pass.new }
        ensures claimed { IsTrue result → view pass.new
            ≡ with_step (claiming node) (view pass.old) }
        ensures refused { IsFalse result → (miss : Miss)
            × ((node < (job_in self.now).plan.count → (miss.found ≢ READY)
            × IsMissOf B.work self.now pass.old (node_at (job_in self.now).workers node) miss)
            × ((job_in self.now).plan.count ≤ node → IsMissOf B.work self.now pass.old 0 miss))
            × (view pass.new ≡ with_miss miss (refusing node) (view pass.old)) }
    {
        self.laws_hold();
        let shared = &self.table.shared;
        if node >= self.nodes {
            shared.compare_exchange::<ClaimOutOfRange<B>>(&mut pass.seat, 0, 4 + node as u64, 0);
            return false;
        }
        let at = self.layout().node(node);
        if shared.compare_exchange::<Claim<B>>(&mut pass.seat, at, READY, TAKEN) != READY {
            return false;
        }
        pass.task = Task::Run(node);
        true
    }

    /// Draws a tick, which starts or ends the task's leaf. The answer is the tick.
    pub fn tick(&self, pass: &mut Pass) -> u64
        requires pass { IsPassOf self.now pass.old }
        requires free { IsNotTrapped pass.old }
        requires due { IsTickDue (next_in self.now (pass_view pass.old)) }
        ensures pass { IsPassOf self.now pass.new }
        ensures started { (n leaf : ℕ) → next_in self.now (pass_view pass.old) ≡ Some (acts.Start n leaf)
            → view pass.new ≡ with_step (with_task (StartOf n) (Started n result)) (view pass.old) }
        ensures ended { (n start : ℕ) → next_in self.now (pass_view pass.old) ≡ Some (acts.End n start)
            → view pass.new ≡ with_step (with_task (EndOf n start) (Ended n start result)) (view pass.old) }
    {
        self.laws_hold();
        let at = self.layout().tick();
        let tick = self
            .table
            .shared
            .fetch_add::<DrawTick>(&mut pass.seat, at, 1);
        pass.task = ticked(pass.task, tick);
        tick
    }

    /// Opens the next side of the task's block: parallel right then left, series left then right. Returns that side.
    pub fn open_node(&self, pass: &mut Pass) -> u32
        requires pass { IsPassOf self.now pass.old }
        requires free { IsNotTrapped pass.old }
        requires due { IsOpenDue (next_in self.now (pass_view pass.old)) }
        ensures pass { IsPassOf self.now pass.new }
        ensures opened { (n : ℕ) (task : TaskOf) (event : Event)
            → next_in self.now (pass_view pass.old) ≡ Some (acts.Open n task event)
            → (result ≡ n) × (view pass.new ≡ with_step (opening n event task) (view pass.old)) }
    {
        self.laws_hold();
        let side = self.side_due(pass);
        let at = self.layout().node(side.node);
        self.table.shared.store::<Open>(&mut pass.seat, at, READY);
        pass.task = side.task;
        side.node
    }

    /// The value of the source of the leaf that is to call or to work. The source is done. May be asked again. Memory:
    /// none.
    pub fn source_value(&self, pass: &mut Pass) -> u64
        requires pass { IsPassOf self.now pass.old }
        requires due { IsSourceDue (job_in self.now).source (next_in self.now (pass_view pass.old)) }
        ensures pass { IsPassOf self.now pass.new }
        ensures told { view pass.new ≡ with_step (telling result) (view pass.old) }
    {
        self.laws_hold();
        plan_stands_for_tree();
        let source = self.source_due(pass);
        let at = self.layout().value(self.setting.job.node_of(source));
        self.table.shared.load::<LookAtValue>(&mut pass.seat, at)
    }

    /// Stores the value of the started leaf: that of its work on its number, or the reply that its call got. The number of
    /// a leaf with a source is the low 32 bits of what `source_value` told.
    pub fn keep(&self, pass: &mut Pass, value: u64)
        requires pass { IsPassOf self.now pass.old }
        requires free { IsNotTrapped pass.old }
        requires due { IsKeepDueWith B.work (job_in self.now).source (pass_view pass.old).told
            (next_in self.now (pass_view pass.old)) value }
        ensures pass { IsPassOf self.now pass.new }
        ensures kept { (n : ℕ) × (start : ℕ) × ((view pass.old).own.task ≡ Started n start)
            × (view pass.new ≡ with_step (keeping n start value) (view pass.old)) }
    {
        self.laws_hold();
        let Task::Started { node, start } = pass.task else {
            unreachable!()
        };
        let at = self.layout().value(node);
        self.table.shared.store::<Keep>(&mut pass.seat, at, value);
        pass.task = Task::Kept { node, start };
        pass.call = CallState::NotCalled;
    }

    /// Marks as done the leaf that has ended, the series whose right side is whole, or the block handed over.
    pub fn finish(&self, pass: &mut Pass)
        requires pass { IsPassOf self.now pass.old }
        requires free { IsNotTrapped pass.old }
        requires due { IsFinishDue (next_in self.now (pass_view pass.old)) }
        ensures pass { IsPassOf self.now pass.new }
        ensures finished { (n : ℕ) (event : Event)
            → next_in self.now (pass_view pass.old) ≡ Some (acts.Finish n event)
            → view pass.new ≡ with_step (with_task event (next_task n)) (view pass.old) }
    {
        self.laws_hold();
        let node = self.finish_due(pass);
        let at = self.layout().node(node);
        let word = done_word(pass.worker, pass.task);
        self.table.shared.store::<Finish>(&mut pass.seat, at, word);
        pass.task = task_after(node);
    }

    /// Arrives at the join of the task's parallel block. True if the other side arrived before.
    pub fn arrive(&self, pass: &mut Pass) -> bool
        requires pass { IsPassOf self.now pass.old }
        requires free { IsNotTrapped pass.old }
        requires due { IsArriveDue (next_in self.now (pass_view pass.old)) }
        ensures pass { IsPassOf self.now pass.new }
        ensures first { IsFalse result → (p l r n : ℕ)
            → next_in self.now (pass_view pass.old) ≡ Some (acts.Arrive p l r n)
            → view pass.new ≡ with_step (with_task (ArriveFirst p l r n) Idle) (view pass.old) }
        ensures second { IsTrue result → (p l r n : ℕ)
            → next_in self.now (pass_view pass.old) ≡ Some (acts.Arrive p l r n)
            → view pass.new ≡ with_step (with_task (ArriveSecond p l r n) (Handed p)) (view pass.old) }
    {
        self.laws_hold();
        let parent = self.arrival_due(pass);
        let at = self.layout().mark(parent);
        let second = self.table.shared.fetch_add::<Arrive>(&mut pass.seat, at, 1) != 0;
        pass.task = if second {
            Task::Handed(parent)
        } else {
            Task::Idle
        };
        second
    }

    /// Looks whether the root is done. A trapped pass may ask too.
    pub fn root_done(&self, pass: &mut Pass) -> bool
        requires pass { IsPassOf self.now pass.old }
        ensures pass { IsPassOf self.now pass.new }
        ensures done { IsTrue result → view pass.new ≡ seeing_done (view pass.old) }
        ensures undone { IsFalse result → (miss : Miss)
            × ((miss.found % CODES ≢ DONE) × IsMissOf B.work self.now pass.old (node_at (job_in self.now).workers 0) miss)
            × (view pass.new ≡ seeing_undone miss (view pass.old)) }
    {
        self.laws_hold();
        let at = self.layout().node(0);
        self.table.shared.load::<LookAtRoot<B>>(&mut pass.seat, at) % CODES == DONE
    }

    /// Looks at the number of published batches. A trapped pass may ask too.
    pub fn since(&self, pass: &mut Pass) -> u64
        requires pass { IsPassOf self.now pass.old }
        ensures pass { IsPassOf self.now pass.new }
        ensures told { view pass.new ≡ with_since result (view pass.old) }
    {
        self.laws_hold();
        let at = self.layout().batch_count();
        self.table.shared.load::<ReadBatchCount>(&mut pass.seat, at)
    }

    /// Sets the stop word to 1. A trapped pass may do so too.
    pub fn stop(&self, pass: &mut Pass)
        requires pass { IsPassOf self.now pass.old }
        ensures pass { IsPassOf self.now pass.new }
        ensures stopped { (moment : ℕ) × IsMomentIn B.work self.now pass.old moment
            × (view pass.new ≡ with_stop moment (view pass.old)) }
    {
        self.laws_hold();
        let at = self.layout().stop();
        self.table.shared.store::<Stop<B>>(&mut pass.seat, at, 1);
    }

    /// Looks whether the stop word is 1. A trapped pass may ask too.
    pub fn stopped(&self, pass: &mut Pass) -> bool
        requires pass { IsPassOf self.now pass.old }
        ensures pass { IsPassOf self.now pass.new }
        ensures set { IsTrue result → view pass.new ≡ with_step finding_stop (view pass.old) }
        ensures unset { IsFalse result → (miss : Miss)
            × ((miss.found ≡ 0) × IsMissOf B.work self.now pass.old (stop_at (job_in self.now).workers) miss)
            × (view pass.new ≡ with_miss miss finding_none (view pass.old)) }
    {
        self.laws_hold();
        let at = self.layout().stop();
        self.table.shared.load::<LookAtStop<B>>(&mut pass.seat, at) == 1
    }
}
