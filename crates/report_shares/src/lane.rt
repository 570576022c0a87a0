//! The shares of one worker: its rows are told apart by what their leaves do, and the ticks of each column are counted.
ghost use Rattle.std.specs.Prelude.{◌≡◌, ◌++◌, ◌<◌, ◌≤◌, ◌^◌, length, map, OnOk, IfOk};
ghost use Rattle.std.specs.List.{filter, range_with_len};
ghost use Rattle.std.specs.Ordering.{nat_cmp};
ghost use Rattle.std.specs.BTreeSet.{contains};
ghost use Rattle.report_shares.specs.Shares.{works, calls_in, share_in, lane_shares};

use crate::share::Share;
use crate::ticks::{edge, ticks_in};
use batch_history::Row;
use std::alloc::{AllocError, Global};
use std::collections::BTreeSet;

/// The rows of a worker: those whose leaves work, and those whose leaves call.
#[derive(Drop)]
struct Lane {
    work: Vec<Row>,
    calls: Vec<Row>,
}

/// The rows of a worker, where these leaves call.
fn lane_of(
    alloc: Global,
    callers: &BTreeSet<u32>,
    rows: &[Row],
    worker: u32,
) -> Result<Lane, AllocError>
    ensures work { IfOk result (λ lane. lane.work.items
        ≡ filter (works (contains nat_cmp callers.now) worker) rows.now) }
    ensures calls { IfOk result (λ lane. lane.calls.items
        ≡ filter (calls_in (contains nat_cmp callers.now) worker) rows.now) }
{
    let mut work = Vec::new(alloc);
    let mut calls = Vec::new(alloc);
    for row in rows {
        if row.worker == worker {
            if callers.contains(&row.leaf) {
                calls.push(*row)?;
            } else {
                work.push(*row)?;
            }
        }
    }
    Ok(Lane { work, calls })
}

/// What the worker of a lane does in a column, for so many leaves.
fn share_in(lane: &Lane, leaves: u32, worker: u32, column: u32) -> Share
    requires work { length lane.now.work.items < 2 ^ 32 }
    requires calls { length lane.now.calls.items < 2 ^ 32 }
    requires column { column < 2 ^ 31 }
    ensures { result ≡ share_in leaves worker column lane.now.work.items lane.now.calls.items }
{
    let from = edge(leaves, column);
    let to = edge(leaves, column + 1);
    Share {
        worker,
        column,
        from,
        to,
        work: ticks_in(from, to, lane.work.as_slice()),
        calls: ticks_in(from, to, lane.calls.as_slice()),
    }
}

/// Appends the shares of a worker with these rows, for so many leaves.
fn push_shares(
    shares: &mut Vec<Share>,
    lane: &Lane,
    leaves: u32,
    worker: u32,
) -> Result<(), AllocError>
    requires work { length lane.now.work.items < 2 ^ 32 }
    requires calls { length lane.now.calls.items < 2 ^ 32 }
    ensures { OnOk result (shares.new.items ≡ shares.old.items
        ++ map (λ column. share_in leaves worker column lane.now.work.items lane.now.calls.items)
        (range_with_len 0 120)) }
{
    for column in 0..120 {
        shares.push(share_in(lane, leaves, worker, column))?;
    }
    Ok(())
}

/// Appends the shares of a worker, where these leaves call.
pub(crate) fn push_lane(
    alloc: Global,
    shares: &mut Vec<Share>,
    callers: &BTreeSet<u32>,
    rows: &[Row],
    worker: u32,
) -> Result<(), AllocError>
    requires { length rows.now < 2 ^ 32 }
    ensures { OnOk result (shares.new.items ≡ shares.old.items
        ++ lane_shares (contains nat_cmp callers.now) rows.now worker) }
{
    let lane = lane_of(alloc, callers, rows, worker)?;
    push_shares(shares, &lane, rows.len() as u32, worker)
}
