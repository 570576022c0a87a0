//! Two workers at the job of two adds, step by step, on one thread.
ghost use Rattle.std.specs.Prelude.{◌≡◌, true, Some, IfOk};
ghost use Rattle.core_table.specs.Passes.{next_in, pass_view};
ghost use Rattle.sp_order.specs.Precedence.{leaf, par};
ghost use Rattle.table_tests.specs.Tables.{HasNoFlag, IsForTwo};

use crate::launches::{end_launch, win_finding};
use crate::runs::report_of;
use crate::steps::{claim, go_on};
use batch_history::Report;
use core_model::{Next, Receipt};
use core_table::{CoreTable, Pass};
use leaf_work::Spin;
use seq_objects::{Act, Op, Reply};
use sp_order::{Job, Shape};
use std::alloc::{AllocError, Global};
use std::test::Fail;
use table_rule::OpRecord;

/// `par { counter add 1 counter add 2 }`.
fn two_adds(alloc: Global) -> Result<Job, AllocError>
    ensures { IfOk result (λ job. job.shape ≡ Some (par leaf leaf)) }
{
    let shape = Shape::Par(Box::new(alloc, Shape::Leaf)?, Box::new(alloc, Shape::Leaf)?);
    let acts = vec![in alloc;
        Act::Call(Op::CounterAdd(0, 1)),
        Act::Call(Op::CounterAdd(0, 2)),
    ]?;
    Ok(Job::of(Some(shape), acts))
}

/// Whether both workers start a leaf: worker 0 the left one, and then worker 1 the right one.
fn both_start(table: &CoreTable<Spin>, zero: &mut Pass, one: &mut Pass) -> bool
    requires zero { HasNoFlag table.now zero.old }
    requires one { HasNoFlag table.now one.old }
    ensures zero { HasNoFlag table.now zero.new }
    ensures one { HasNoFlag table.now one.new }
{
    claim(table, zero, 0) && claim(table, zero, 1) && claim(table, one, 2)
}

/// Posts this act, if it is a call without a source. Whether it did.
fn post_act(table: &CoreTable<Spin>, pass: &mut Pass, act: Next) -> bool
    requires own { HasNoFlag table.now pass.old }
    requires due { next_in table.now (pass_view pass.old) ≡ Some act }
    ensures own { HasNoFlag table.now pass.new }
{
    match act {
        Next::Call { leaf, op, .. } if table.source(leaf).is_none() => {
            table.post(pass, OpRecord { leaf, op });
            true
        }
        _ => false,
    }
}

/// Posts the call that is due, where that is wanted. Whether it did all that is wanted.
fn post(table: &CoreTable<Spin>, pass: &mut Pass, is_wanted: bool) -> bool
    requires own { HasNoFlag table.now pass.old }
    ensures own { HasNoFlag table.now pass.new }
{
    if !is_wanted {
        return true;
    }
    match table.next(pass) {
        Some(act) => post_act(table, pass, act),
        None => false,
    }
}

/// Whether a worker whose call is out hears of no batch, does not win the flag, and finds no receipt.
fn is_waiting(table: &CoreTable<Spin>, pass: &mut Pass) -> bool
    requires own { HasNoFlag table.now pass.old }
    ensures own { result ≡ true → HasNoFlag table.now pass.new }
{
    if !pass.trapped() || table.since(pass) != 0 || table.win(pass).is_some() {
        return false;
    }
    table.leave(pass).is_none()
}

/// Whether worker 0 launches its call, with that of worker 1 where that is posted before worker 0 looks at it, and not
/// just after. Worker 1 finds the flag won, and its call not served.
fn is_launched(
    alloc: Global,
    table: &CoreTable<Spin>,
    zero: &mut Pass,
    one: &mut Pass,
    early: bool,
) -> Result<bool, AllocError>
    requires two { IsForTwo table.now }
    requires zero { HasNoFlag table.now zero.old }
    requires one { HasNoFlag table.now one.old }
    ensures zero { IfOk result (λ done. done ≡ true → HasNoFlag table.now zero.new) }
    ensures one { IfOk result (λ done. done ≡ true → HasNoFlag table.now one.new) }
{
    if !post(table, zero, true) || !post(table, one, early) {
        return Ok(false);
    }
    let Some((shop, calls)) = win_finding(alloc, table, zero, (true, early))? else {
        return Ok(false);
    };
    if !post(table, one, !early) || !is_waiting(table, one) {
        return Ok(false);
    }
    end_launch(alloc, table, zero, shop, calls)?;
    Ok(true)
}

/// Whether a worker whose call is the only one launches it, where that is wanted.
fn is_launched_alone(
    alloc: Global,
    table: &CoreTable<Spin>,
    pass: &mut Pass,
    is_wanted: bool,
) -> Result<bool, AllocError>
    requires two { IsForTwo table.now }
    requires own { HasNoFlag table.now pass.old }
    ensures own { IfOk result (λ done. done ≡ true → HasNoFlag table.now pass.new) }
{
    if !is_wanted {
        return Ok(true);
    }
    let Some((shop, calls)) = win_finding(alloc, table, pass, (false, true))? else {
        return Ok(false);
    };
    end_launch(alloc, table, pass, shop, calls)?;
    Ok(true)
}

/// A receipt's batch, its place, and the number that it replies.
fn told(receipt: Receipt) -> (u32, u32, u64) {
    let number = match receipt.reply {
        Reply::Number(number) => number,
        _ => 0,
    };
    (receipt.batch, receipt.place, number)
}

/// Whether a worker leaves with this batch, place and number. It then ends its leaf.
fn leaves_with(table: &CoreTable<Spin>, pass: &mut Pass, wanted: (u32, u32, u64)) -> bool
    requires own { HasNoFlag table.now pass.old }
    ensures own { HasNoFlag table.now pass.new }
{
    if !pass.trapped() {
        return false;
    }
    match table.leave(pass) {
        Some(receipt) => {
            go_on(table, pass);
            told(receipt) == wanted
        }
        None => false,
    }
}

/// Whether both calls are served: as one batch where they are launched together, and else as two.
fn both_are_served(
    alloc: Global,
    table: &CoreTable<Spin>,
    zero: &mut Pass,
    one: &mut Pass,
    early: bool,
) -> Result<bool, AllocError>
    requires two { IsForTwo table.now }
    requires zero { HasNoFlag table.now zero.old }
    requires one { HasNoFlag table.now one.old }
    ensures one { IfOk result (λ done. done ≡ true → HasNoFlag table.now one.new) }
{
    if !both_start(table, zero, one)
        || !is_launched(alloc, table, zero, one, early)?
        || !leaves_with(table, zero, (0, 0, 1))
        || !is_launched_alone(alloc, table, one, !early)?
    {
        return Ok(false);
    }
    let (batch, place) = if early { (0, 1) } else { (1, 0) };
    Ok(leaves_with(table, one, (batch, place, 3)))
}

/// Whether these are the rows of the report: the worker, the start, the end and the value of each leaf.
fn has_rows(report: &Report, wanted: [(u32, u64, u64, u64); 2]) -> bool {
    let rows = report.rows.list();
    rows.len() == 2
        && (rows[0].worker, rows[0].start, rows[0].end, rows[0].value) == wanted[0]
        && (rows[1].worker, rows[1].start, rows[1].end, rows[1].value) == wanted[1]
}

/// The report of two workers whose calls are launched together, or one after the other, where all goes so.
fn report_of_two(alloc: Global, early: bool) -> Result<Option<Report>, AllocError> {
    let job = two_adds(alloc)?;
    let (table, mut passes) = CoreTable::<Spin>::make(alloc, &job, 2)?;
    let mut one = passes.remove(1);
    let mut zero = passes.remove(0);
    if both_are_served(alloc, &table, &mut zero, &mut one, early)? {
        report_of(alloc, table, one)
    } else {
        Ok(None)
    }
}

/// Whether the report has so many batches, and the rows of both workers.
fn has_batches(report: &Report, batches: usize) -> bool {
    report.history.batches().len() == batches && has_rows(report, [(0, 0, 2, 1), (1, 1, 3, 3)])
}

/// Whether the workers' calls, launched together or not, come in so many batches.
fn gives_batches(alloc: Global, early: bool, batches: usize) -> Result<bool, AllocError> {
    Ok(match report_of_two(alloc, early)? {
        Some(report) => has_batches(&report, batches),
        None => false,
    })
}

#[test]
fn two_calls_are_one_batch(rt: HostRuntime) -> Result<(), Fail> {
    assert!(rt; gives_batches(rt.alloc(), true, 1)?);
    Ok(())
}

#[test]
fn a_late_call_comes_in_the_next_batch(rt: HostRuntime) -> Result<(), Fail> {
    assert!(rt; gives_batches(rt.alloc(), false, 2)?);
    Ok(())
}
