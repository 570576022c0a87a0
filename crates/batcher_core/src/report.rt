//! The rows of a report, one for each leaf.
ghost use Rattle.std.specs.Prelude.{◌≡◌, ◌≢◌, ◌<◌, ◌≤◌, ℕ, None, IfOk, map};
ghost use Rattle.std.specs.List.{AllByRecursion, range_with_len};
ghost use Rattle.sp_order.specs.Jobs.{job_tree};
ghost use Rattle.sp_order.specs.Precedence.{leaves};
ghost use Rattle.sp_order.specs.Preorder.{nodes_of};
ghost use Rattle.batch_history.specs.declared.row.Row.{Row};
ghost use Rattle.core_model.specs.declared.progress.Progress.TheVariants.{Waiting};
ghost use Rattle.core_state.specs.Places.{at};
ghost use Rattle.core_model.specs.Reports.{HasRun, IsRowFor, TellsLeaf};

use batch_history::Row;
use core_model::Progress;
use sp_order::PlannedJob;
use std::alloc::{AllocError, Global};

/// The row of a leaf that has run and has a value.
fn row_of(leaf: u32, progress: Progress, value: Option<u64>) -> Row
    requires ran { HasRun progress }
    requires value { value ≢ None }
    ensures leaf { result.leaf ≡ leaf }
    ensures row { IsRowFor progress value result }
{
    let Progress::Ran { worker, start, end } = progress else {
        unreachable!()
    };
    let Some(value) = value else { unreachable!() };
    Row {
        leaf,
        worker,
        start,
        end,
        value,
    }
}

/// The rows of the leaves below `leaf_total`, in leaf order. Each of these leaves must have run and have a value.
pub(crate) fn rows_of(
    alloc: Global,
    job: &PlannedJob,
    nodes: &[Progress],
    values: &[Option<u64>],
    leaf_total: u32,
) -> Result<Vec<Row>, AllocError>
    requires few { leaf_total ≤ leaves (job_tree job.now) }
    requires ran { (leaf : ℕ) → leaf < leaf_total
        → HasRun (at nodes.now Waiting ((nodes_of (job_tree job.now)).node_of leaf)) }
    requires valued { (leaf : ℕ) → leaf < leaf_total
        → at values.now None ((nodes_of (job_tree job.now)).node_of leaf) ≢ None }
    ensures leaves { IfOk result (λ rows. map (λ row. row.leaf) rows.items
        ≡ range_with_len 0 leaf_total) }
    ensures rows { IfOk result (λ rows. AllByRecursion
        (λ row. TellsLeaf (nodes_of (job_tree job.now)).node_of (at nodes.now Waiting)
        (at values.now None) row) rows.items) }
{
    let mut rows = Vec::with_capacity(alloc, leaf_total as usize)?;
    for leaf in 0..leaf_total {
        let node = job.node_of(leaf) as usize;
        rows.push(row_of(leaf, nodes[node], values[node]))?;
    }
    Ok(rows)
}
