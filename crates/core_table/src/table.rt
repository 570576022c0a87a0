//! `CoreTable`, which all workers share, and `Pass`, which each worker owns.
ghost use Rattle.std.specs.Prelude.{◌≡◌, ◌+◌, ◌*◌, ◌<◌, ◌≤◌, Some, length, vec_len, vec_capacity};
ghost use Rattle.std.specs.Coded.{codes};
ghost use Rattle.limits.specs.declared.TheConstants.{MOST_LEAVES, MOST_WORKERS};
ghost use Rattle.sp_order.specs.Jobs.{job_tree};
ghost use Rattle.sp_order.specs.TreeEncoding.{coded_tree};
ghost use Rattle.sp_order.specs.Precedence.{leaves};
ghost use Rattle.table_rule.specs.Words.{word_count, slot_count};
ghost use Rattle.core_model.specs.Settings.{job_of};

use atomic_table::{Seat, Table};
use core_model::laws::book::job_has_its_sources;
use core_model::{CallState, Setting, Task};
use leaf_work::WorkBrand;
use seq_objects::Act;
use sp_order::PlannedJob;
use std::alloc::Global;
use table_rule::laws::laws_hold;
use table_rule::plays::SchedulerRule;
use table_rule::{Layout, Slot, View};

/// The running table: the core's state as atomic words and slots that all passes share. `B` says what the leaves of work
/// compute.
#[derive(Drop)]
pub struct CoreTable<B: WorkBrand> {
    pub(crate) table: Table<Slot, View, Setting, SchedulerRule<B>, Global>,
    pub(crate) setting: Setting,
    pub(crate) nodes: u32,
    ghost key: { (table.shared.key ≡ setting) × (nodes ≡ (job_of setting).plan.count) },
    ghost sized: { (table.shared.table_id.words ≡ word_count setting.workers nodes)
        × (table.shared.table_id.slots ≡ slot_count setting.workers) },
    ghost few: { (0 < setting.workers) × (setting.workers ≤ MOST_WORKERS) × (nodes < 2 * MOST_LEAVES) × (0 < nodes) },
    ghost shape: { setting.job.shape ≡ Some (job_tree setting.job) } by { Prim.hlevel (codes, coded_tree) },
    ghost acts: { (length setting.job.acts ≡ leaves (job_tree setting.job))
        × (length setting.job.acts ≤ MOST_LEAVES) },
}

/// One worker's access to a table. A pass cannot be copied, so no other thread can act on the worker's task or call.
#[derive(Drop)]
pub struct Pass {
    pub(crate) seat: Seat<Slot, View>,
    pub(crate) worker: u32,
    pub(crate) task: Task,
    pub(crate) call: CallState,
    /// The workers taken and not answered, in the order of the seat's list: a slot is exposed only at its head.
    pub(crate) owed: Vec<u32>,
    /// Whether the present hold of the flag has published its batch.
    pub(crate) published: bool,
    ghost number: { (seat.me.0.own.worker ≡ worker) × (seat.me.0.to ≡ worker + 1) },
    ghost own: { (seat.me.0.own.task ≡ task) × (seat.me.0.own.call ≡ call) },
    ghost room: { (MOST_WORKERS ≤ vec_capacity owed) × (vec_len owed ≡ length owed.items) },
}

impl<B: WorkBrand> CoreTable<B> {
    ghost use Rattle.core_model.specs.Settings.{job_with};
    ghost use Rattle.core_model.specs.declared.setting.Setting.{Setting};
    ghost use Rattle.core_table.specs.Passes.{job_in, planned_in, setting_in};
    ghost use Rattle.table_rule.specs.Laws.{Laws};

    /// Where the table's words stand. Memory: none.
    pub(crate) fn layout(&self) -> Layout
        ensures workers { result.workers ≡ self.now.setting.workers }
        ensures nodes { result.nodes ≡ self.now.nodes }
    {
        Layout {
            workers: self.setting.workers,
            nodes: self.nodes,
        }
    }

    /// The rule's laws hold of the table's job. For proofs only; does nothing at run time.
    pub(crate) fn laws_hold(&self)
        ensures { (key : Setting) → setting_in self.now ≡ key → Laws (job_with B.work key) }
    {
        laws_hold();
        job_has_its_sources();
        let _acts = self.setting.job.acts();
    }

    /// The job, with its plan. Memory: none.
    pub fn job(&self) -> &PlannedJob
        ensures { result.now ≡ planned_in self.now }
    {
        &self.setting.job
    }

    /// The source of a leaf: the leaf whose value it takes. `None` if it has none, and for a number past the last leaf.
    /// Memory: none.
    pub fn source(&self, leaf: u32) -> Option<u32>
        ensures { result ≡ (job_in self.now).source leaf }
    {
        if leaf as usize >= self.setting.job.acts().len() {
            return None;
        }
        self.setting.job.source(leaf)
    }

    /// The act of a leaf; `Work(0)` for a number past the last leaf. Memory: none.
    pub fn act(&self, leaf: u32) -> Act
        ensures { result ≡ (job_in self.now).act leaf }
    {
        match self.setting.job.acts().get(leaf as usize) {
            Some(act) => *act,
            None => Act::Work(0),
        }
    }
}

impl Pass {
    ghost use Rattle.std.specs.Prelude.{IsTrue, ◌↔◌};
    ghost use Rattle.core_table.specs.Passes.{view, IsTrapped};

    /// The worker's number. Memory: none.
    pub fn worker(&self) -> u32
        ensures { result ≡ (view self.now).own.worker }
    {
        self.worker
    }

    /// The worker's present task. Memory: none.
    pub fn task(&self) -> Task
        ensures { result ≡ (view self.now).own.task }
    {
        self.task
    }

    /// The state of the worker's call: not called, outstanding, or answered. Memory: none.
    pub fn call(&self) -> CallState
        ensures { result ≡ (view self.now).own.call }
    {
        self.call
    }

    /// Whether the worker's call is outstanding: posted, and not left. Memory: none.
    pub fn trapped(&self) -> bool
        ensures { IsTrue result ↔ IsTrapped self.now }
    {
        matches!(self.call, CallState::Out)
    }
}
