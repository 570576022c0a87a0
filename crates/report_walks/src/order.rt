//! Whether the rows keep the order of a job: one walk over its shape, and one over the ticks.
ghost use Rattle.std.specs.Prelude.{◌≡◌, ◌↔◌, ℕ, ◌<◌, ◌≤◌, ◌+◌, [], length, IsTrue, IfSome, IfNone, IfOk, min, max};
ghost use Rattle.limits.specs.declared.TheConstants.{MOST_WORKERS};
ghost use Rattle.sp_order.specs.Jobs.{IsJob};
ghost use Rattle.sp_order.specs.Precedence.{tree_of, leaves, leaf_count, IsBefore};
ghost use Rattle.batch_history.specs.Lawful.{ForRows, HasRows, KeepsOrder};
ghost use Rattle.report_walks.specs.Parts.{report_of, of_rows};
ghost use Rattle.report_walks.specs.Code.Spans.{KeepsBefore, KeepsAlone, IsSpanOf, AreStarts, AreTimed};

use batch_history::Row;
use limits::MOST_WORKERS;
use sp_order::{Job, Shape};
use std::alloc::{AllocError, Global};

/// The span of a part of a shape: the number of the leaf behind it, its least start and its greatest end.
#[derive(Clone, Copy)]
pub(crate) struct Span {
    next: usize,
    least: u64,
    greatest: u64,
}

/// The span of this part of a shape, whose leaves are numbered from `first` on, if its leaves keep its order. In a
/// series, all leaves on the left end before all on the right start exactly where the greatest end is below the least
/// start. It recurses once for each level.
fn span_of(shape: &Shape, rows: &[Row], first: usize) -> Option<Span>
    requires { first + leaves (tree_of shape.now) ≤ length rows.now }
    ensures some { IfSome result (λ span. IsSpanOf rows.now first (tree_of shape.now) span
        × KeepsBefore rows.now first (tree_of shape.now)) }
    ensures none { IfNone result (KeepsBefore rows.now first (tree_of shape.now) → ⊥) }
{
    match shape {
        Shape::Leaf => {
            let row = rows[first];
            Some(Span {
                next: first + 1,
                least: row.start,
                greatest: row.end,
            })
        }
        Shape::Seq(left, right) => {
            let early = span_of(left, rows, first)?;
            let late = span_of(right, rows, early.next)?;
            if late.least <= early.greatest {
                return None;
            }
            Some(joined(early, late))
        }
        Shape::Par(left, right) => {
            let one = span_of(left, rows, first)?;
            let other = span_of(right, rows, one.next)?;
            Some(joined(one, other))
        }
    }
}

/// The span of two parts side by side.
fn joined(left: Span, right: Span) -> Span
    ensures { result ≡ record {
      next = right.next;
      least = min left.least right.least;
      greatest = max left.greatest right.greatest;
    } }
{
    Span {
        next: right.next,
        least: left.least.min(right.least),
        greatest: left.greatest.max(right.greatest),
    }
}

/// Which leaf starts at each tick, if one does.
fn starts_of(alloc: Global, rows: &[Row]) -> Result<Vec<Option<u32>>, AllocError>
    requires { AreTimed rows.now }
    ensures { IfOk result (λ starts. AreStarts rows.now starts.items) }
{
    let mut starts = vec![in alloc; None; 2 * rows.len()]?;
    for (leaf, row) in rows.iter().enumerate() {
        starts[row.start as usize] = Some(leaf as u32);
    }
    Ok(starts)
}

/// Whether of two leaves of one worker always one ends before the other starts. `started` tells which leaf starts at
/// each tick. The walk goes over the ticks, with the tick from which each worker is free.
fn are_alone(rows: &[Row], started: &[Option<u32>]) -> bool
    requires timed { AreTimed rows.now }
    requires starts { AreStarts rows.now started.now }
    ensures { IsTrue result ↔ KeepsAlone rows.now }
{
    let mut free_from = [0u64; MOST_WORKERS as usize];
    for (tick, leaf) in started.iter().enumerate() {
        if let Some(leaf) = leaf {
            let row = rows[*leaf as usize];
            let worker = row.worker as usize;
            if (tick as u64) < free_from[worker] {
                return false;
            }
            free_from[worker] = row.end + 1;
        }
    }
    true
}

/// Whether the leaves of the shape keep its order, if there is a shape.
fn keeps_before(job: &Job, rows: &[Row]) -> bool
    requires { length rows.now ≡ leaf_count job.now.shape }
    ensures job { IsJob job.now }
    ensures before { IsTrue result ↔ ((u v : ℕ) → IsBefore job.now.shape u v
        → ForRows (of_rows rows.now) u v (λ row row'. row.end < row'.start)) }
{
    match job.shape() {
        None => true,
        Some(shape) => span_of(shape, rows, 0).is_some(),
    }
}

/// Whether each leaf ends before those start that it is before, and whether no two leaves of one worker overlap.
///
/// Memory: linear in the leaves.
pub fn keeps_order(alloc: Global, job: &Job, rows: &[Row]) -> Result<bool, AllocError>
    requires { (workers : ℕ) × (workers ≤ MOST_WORKERS)
        × HasRows job.now workers (report_of workers [] rows.now) }
    ensures { IfOk result (λ keeps. IsTrue keeps ↔ KeepsOrder job.now (of_rows rows.now)) }
{
    if !keeps_before(job, rows) {
        return Ok(false);
    }
    let starts = starts_of(alloc, rows)?;
    Ok(are_alone(rows, starts.as_slice()))
}
