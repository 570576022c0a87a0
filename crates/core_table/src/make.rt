//! Making a table in the opening state, with one pass for each worker.
ghost use Rattle.std.specs.Prelude.{◌≡◌, ℕ, ◌+◌, ◌*◌, ◌<◌, ◌≤◌, ◌∷◌, ◌++◌, [], Some, length, replicate, slice_set, slice_get, slice_index, IsSome, IfSome, IfOk};
ghost use Rattle.limits.specs.declared.TheConstants.{MOST_LEAVES};
ghost use Rattle.sp_order.specs.Jobs.{job_tree};
ghost use Rattle.sp_order.specs.Preorder.{nodes_of};
ghost use Rattle.core_model.specs.State.{core_job};
ghost use Rattle.core_model.specs.Measure.{call_count, one_if_call};
ghost use Rattle.table_rule.specs.Words.{node_at, stop_at, word_count};
ghost use Rattle.table_rule.specs.Shows.{reserved, ShownWith, TableState};
ghost use Rattle.core_table.specs.Passes.{job_in, planned_in, setting_in, opening_view, AreSeated, IsPassOf, view};

use crate::table::{CoreTable, Pass};
use atomic_table::{Refused, Table};
use batch_history::ReservedHistory;
use core_model::laws::book::job_has_its_sources;
use core_model::{CallState, Setting, Task};
use launch_batch::Shop;
use leaf_work::WorkBrand;
use limits::MOST_WORKERS;
use seq_objects::Act;
use sp_order::node::Kind;
use sp_order::{Job, PlannedJob};
use std::alloc::{AllocError, Global};
use table_rule::laws::{laws_hold, the_stop_word_is_set_by_a_pass};
use table_rule::plays::{Enrol, SplitSeat};
use table_rule::{Layout, READY, Slot};

/// The words of the opening state: all are 0 but the root's, which is ready.
fn opening_words(alloc: Global, layout: Layout) -> Result<Vec<u64>, AllocError>
    requires { (layout.workers ≤ MOST_WORKERS) × (0 < layout.nodes) × (layout.nodes < 2 * MOST_LEAVES) }
    ensures { IfOk result (λ v. v.items ≡ slice_set
        (replicate (word_count layout.workers layout.nodes) 0) (node_at layout.workers 0) READY) }
{
    let mut words = Vec::from_elem(alloc, 0u64, layout.word_count())?;
    words[layout.node(0)] = READY;
    Ok(words)
}

/// The slots of the opening state: a vacant record slot for each worker, an empty shop, and an empty book with room for
/// `room` batches.
fn opening_slots(alloc: Global, layout: Layout, room: usize) -> Result<Vec<Slot>, AllocError>
    requires { layout.workers ≤ MOST_WORKERS }
    ensures { IfOk result (λ v. v.items
        ≡ replicate layout.workers Slot.Vacant ++ Slot.Shop [] ∷ Slot.Book (reserved [] room) ∷ []) }
{
    let shop = Shop::new(alloc)?;
    let book = ReservedHistory::with_capacity(alloc, room)?;
    let mut slots = Vec::with_capacity(alloc, layout.slot_count())?;
    for _ in 0..layout.workers {
        slots.push_reserved(Slot::Vacant);
    }
    slots.push_reserved(Slot::Shop(shop));
    slots.push_reserved(Slot::Book(book));
    Ok(slots)
}

/// 1 if the node is a leaf that makes a call, else 0.
fn calls_at(job: &PlannedJob, node: u32) -> usize
    requires { node < (nodes_of (job_tree job.now)).count }
    ensures { (workers : ℕ) → result
        ≡ one_if_call (core_job job.now workers) ((nodes_of (job_tree job.now)).kind node) }
{
    match job.kind(node) {
        Kind::LeafNode(leaf) => match job.acts().get(leaf as usize) {
            Some(Act::Call(_)) => 1,
            _ => 0,
        },
        _ => 0,
    }
}

/// The number of leaves that make a call, and so the most batches that a run can need.
fn count_calls(job: &PlannedJob, nodes: u32) -> usize
    requires { (nodes ≡ (nodes_of (job_tree job.now)).count) × (nodes < 2 * MOST_LEAVES) }
    ensures { (workers : ℕ) → result ≡ call_count (core_job job.now workers) }
{
    let mut count = 0;
    for node in 0..nodes {
        count += calls_at(job, node);
    }
    count
}

impl<B: WorkBrand> CoreTable<B> {
    /// The table of a job that has leaves, in the opening state, and one pass for each worker, in order of worker
    /// number.
    ///
    /// Memory: proportional to the nodes and the workers.
    pub fn make(
        alloc: Global,
        job: &Job,
        workers: u32,
    ) -> Result<(CoreTable<B>, Vec<Pass>), AllocError>
        requires leaves { IsSome job.now.shape }
        requires some_workers { 0 < workers }
        requires few_workers { workers ≤ MOST_WORKERS }
        ensures job { IfOk result (λ r. (planned_in r.0 ≡ job.now) × ((job_in r.0).workers ≡ workers)) }
        ensures count { IfOk result (λ r. length r.1.items ≡ workers) }
        ensures passes { IfOk result (λ r. (w : ℕ) → IfSome (slice_get r.1.items w)
            (λ pass. IsPassOf r.0 pass × (view pass ≡ opening_view r.0 w))) }
        ensures unset { IfOk result (λ r. (t : TableState) → ShownWith B.work (setting_in r.0) t → AreSeated t r.1.items
            → slice_index t.words (stop_at (setting_in r.0).workers) ≡ 0) }
    {
        let setting = Setting::of(alloc, job, workers)?;
        CoreTable::<B>::of(alloc, setting)
    }

    /// The table and the passes of a setting: a planned job and a number of workers.
    fn of(alloc: Global, setting: Setting) -> Result<(CoreTable<B>, Vec<Pass>), AllocError>
        requires workers { (0 < setting.workers) × (setting.workers ≤ MOST_WORKERS) }
        ensures table { IfOk result (λ r. setting_in r.0 ≡ setting) }
        ensures count { IfOk result (λ r. length r.1.items ≡ setting.workers) }
        ensures passes { IfOk result (λ r. (w : ℕ) → IfSome (slice_get r.1.items w)
            (λ pass. IsPassOf r.0 pass × (view pass ≡ opening_view r.0 w))) }
        ensures unset { IfOk result (λ r. (t : TableState) → ShownWith B.work (setting_in r.0) t → AreSeated t r.1.items
            → slice_index t.words (stop_at (setting_in r.0).workers) ≡ 0) }
    {
        laws_hold();
        the_stop_word_is_set_by_a_pass();
        job_has_its_sources();
        let nodes = setting.job.nodes();
        let workers = setting.workers;
        let layout = Layout { workers, nodes };
        let room = count_calls(&setting.job, nodes);
        let words = opening_words(alloc, layout)?;
        let slots = opening_slots(alloc, layout, room)?;
        let (table, mut seat) = match Table::new(alloc, &words, slots, &setting) {
            Ok(made) => made,
            Err(Refused { slots: _ }) => return Err(AllocError),
        };
        let mut passes = Vec::with_capacity(alloc, workers as usize)?;
        for worker in 0..workers {
            let mut own = table.shared.split_seat::<SplitSeat>(&mut seat);
            table.shared.load::<Enrol>(&mut own, 0);
            let owed = Vec::with_capacity(alloc, MOST_WORKERS as usize)?;
            passes.push_reserved(Pass {
                seat: own,
                worker,
                task: Task::Idle,
                call: CallState::NotCalled,
                owed,
                published: false,
            });
        }
        Ok((
            CoreTable {
                table,
                setting,
                nodes,
            },
            passes,
        ))
    }
}
