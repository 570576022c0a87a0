//! Closing a table: the report of the run, from the table's last words and its book.
ghost use Rattle.std.specs.Prelude.{◌≡◌, ℕ, ◌<◌, ◌≤◌, [], map, true, IfOk, vec_capacity, vec_len};
ghost use Rattle.std.specs.List.{AllByRecursion, range_with_len};
ghost use Rattle.std.specs.Mem.Slots.{slots_items, slots_len, slots_filled, IsFull};
ghost use Rattle.sp_order.specs.Jobs.{job_tree};
ghost use Rattle.sp_order.specs.Precedence.{leaves};
ghost use Rattle.sp_order.specs.Preorder.{nodes_of};
ghost use Rattle.batch_history.specs.Lawful.{LawfulWith};
ghost use Rattle.table_rule.specs.Words.{word_count};
ghost use Rattle.table_rule.specs.Shows.{IsPrefix, events_by, TableState};
ghost use Rattle.core_table.specs.Passes.{IsPassOf, job_in, planned_in, setting_in, view};
ghost use Rattle.core_table.specs.Closing.{RowInWords, IsReportOfTable};
ghost use Rattle.core_model.specs.Reports.{IsRunFrom, IsRunReportWith};
ghost use Rattle.core_model.specs.Settings.{job_with};
ghost use Rattle.core_model.specs.State.{opening_core};
ghost use mathlib.Core.Option.{some};
ghost use lib.ListN.{get_elem?};
ghost use Rattle.core_table.specs.Code.Rows.{HasSlotsBelow};

use crate::table::{CoreTable, Pass};
use atomic_table::Closed;
use batch_history::{Report, Row, Rows};
use core_model::laws::report::{done_leaves_have_run, done_report_is_lawful};
use leaf_work::WorkBrand;
use sp_order::PlannedJob;
use sp_order::laws::{leaf_has_one_node, plan_has_sides, plan_stands_for_tree};
use std::alloc::{AllocError, Global};
use table_rule::{Layout, RanLeaf, Slot};

/// One row for each leaf, in leaf order, unpacked from the words of its node (`RanLeaf`).
fn read_rows(
    closed: &Closed<Slot, Global>,
    job: &PlannedJob,
    layout: Layout,
    leaf_total: u32,
    rows: Vec<Row>,
) -> Vec<Row>
    requires words { IsFull closed.now.words
        × (slots_len closed.now.words ≡ word_count layout.workers layout.nodes) }
    requires plan { (layout.nodes ≡ (nodes_of (job_tree job.now)).count)
        × (leaf_total ≤ leaves (job_tree job.now)) }
    requires room { (rows.items ≡ []) × (vec_len rows ≡ 0) × (leaf_total ≤ vec_capacity rows) }
    ensures leaves { map (λ row. row.leaf) result.items ≡ range_with_len 0 leaf_total }
    ensures told { AllByRecursion (RowInWords layout.workers layout.nodes leaf_total (nodes_of (job_tree job.now)).node_of
        (slots_items closed.now.words)) result.items }
{
    plan_stands_for_tree();
    plan_has_sides();
    leaf_has_one_node();
    let mut rows = rows;
    for leaf in 0..leaf_total {
        let node = job.node_of(leaf);
        let ran = RanLeaf::decode(closed.word(layout.node(node)));
        let value = closed.word(layout.value(node));
        rows.push_reserved(Row {
            leaf,
            worker: ran.worker,
            start: ran.start,
            end: ran.end,
            value,
        });
    }
    rows
}

/// Frees a closed table. Slots from `count` on must already be empty.
fn drop_slots(closed: Closed<Slot, Global>, count: usize)
    requires { (count < slots_len closed.slots)
        × HasSlotsBelow (slots_filled closed.slots) (slots_len closed.slots) count }
{
    let mut closed = closed;
    for i in 0..count {
        drop(closed.take(i));
    }
    closed.free();
}

impl<B: WorkBrand> CoreTable<B> {
    /// The number of leaves. Memory: none.
    fn leaf_total(&self) -> u32
        ensures { result ≡ leaves (job_tree (planned_in self.now)) }
    {
        self.setting.job.acts().len() as u32
    }

    /// Closes a table whose root `pass` has seen done. The report has its rows from the table's words, and the table's
    /// book as its history. If memory runs out, the table is dropped.
    ///
    /// Memory: proportional to the leaves.
    pub fn close(self, alloc: Global, pass: Pass) -> Result<Report, AllocError>
        requires pass { IsPassOf self pass }
        requires saw { (view pass).saw_done ≡ true }
        ensures lawful { IfOk result (λ report. LawfulWith B.work (planned_in self)
            (job_in self).workers report) }
        ensures told { IfOk result (λ report. (t : TableState)
            × IsReportOfTable B.work (setting_in self) t report
            × ((id : ℕ) × (get_elem? t.views id ≡ some (view pass)))) }
        ensures run { IfOk result (λ report.
            (run : IsRunFrom (job_with B.work (setting_in self)) (leaves (job_tree (planned_in self))) opening_core report)
            × (events_by (view pass).own.worker run.trace ≡ (view pass).own.events)) }
        ensures model { IfOk result (IsRunReportWith B.work (planned_in self) (job_in self).workers) }
        ensures seen { IfOk result (λ report. IsPrefix (view pass).own.book_seen report.history) }
    {
        self.laws_hold();
        done_leaves_have_run();
        done_report_is_lawful();
        plan_stands_for_tree();
        plan_has_sides();
        leaf_has_one_node();
        let leaf_total = self.leaf_total();
        let layout = self.layout();
        let rows = Vec::with_capacity(alloc, leaf_total as usize)?;
        let CoreTable { table, setting, .. } = self;
        let Pass { seat, .. } = pass;
        let mut closed = table.close_with(seat);
        let rows = read_rows(&closed, &setting.job, layout, leaf_total, rows);
        let at = layout.book_slot();
        let last = closed.take(at);
        drop_slots(closed, at);
        match last {
            Slot::Book(book) => Ok(Report {
                workers: setting.workers,
                history: book.into_history(),
                rows: Rows::of(rows),
            }),
            _ => unreachable!(),
        }
    }
}
