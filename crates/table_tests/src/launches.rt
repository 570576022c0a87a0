//! A launch by hand: all calls that are pending are taken, served as one batch, published and answered.
ghost use Rattle.std.specs.Prelude.{◌≡◌, ◌<◌, ◌+◌, ◌∷◌, ◌++◌, [], List, length, IfOk, IfSome};
ghost use Rattle.seq_objects.specs.Pieces.{AllMeet};
ghost use Rattle.batch_history.specs.declared.batch.Entry.{Entry as EntryOf};
ghost use Rattle.launch_batch.specs.Calls.{MayServe, IsServiceOf};
ghost use Rattle.launch_batch.specs.Pieces.{Meets};
ghost use Rattle.table_tests.specs.Launches.{HasFlag, Answers};
ghost use Rattle.table_tests.specs.Tables.{HasNoFlag, IsForTwo};

use batch_history::{Batch, Entry};
use core_model::Receipt;
use core_table::{CoreTable, Pass};
use launch_batch::{PieceIn, PieceOut, Shop, run_piece};
use leaf_work::Spin;
use seq_objects::Call;
use std::alloc::{AllocError, Global};

/// The outs of pieces that are run from the last to the first, in the order of the pieces.
fn run_all(alloc: Global, pieces: Vec<PieceIn>) -> Result<Vec<PieceOut>, AllocError>
    ensures { IfOk result (λ outs. AllMeet Meets pieces.items outs.items) }
{
    let mut pieces = pieces;
    match pieces.pop() {
        None => Ok(Vec::new(alloc)),
        Some(last) => {
            let out = run_piece(alloc, last)?;
            let mut outs = run_all(alloc, pieces)?;
            outs.push(out)?;
            Ok(outs)
        }
    }
}

/// The shop after it has served these calls as one batch, and the batch.
fn serve_calls(alloc: Global, shop: Shop, calls: Vec<Call>) -> Result<(Shop, Batch), AllocError>
    requires { MayServe shop calls.items }
    ensures batch { IfOk result (λ served. IsServiceOf shop calls.items served.1) }
    ensures shop { IfOk result (λ served. served.0 ≡ shop ++ served.1 ∷ []) }
{
    let (opened, pieces) = shop.begin(alloc, calls)?;
    let outs = run_all(alloc, pieces)?;
    let (shop, batch) = opened.end(alloc, outs)?;
    Ok((shop, batch))
}

/// Looks at worker u, and answers whether its call is pending. Then it is taken, and joins the calls.
fn look(
    table: &CoreTable<Spin>,
    pass: &mut Pass,
    shop: &Shop,
    u: u32,
    calls: &mut Vec<Call>,
) -> Result<bool, AllocError>
    requires two { IsForTwo table.now }
    requires low { u < 2 }
    requires flag { HasFlag table.now shop.now u calls.old.items pass.old }
    ensures flag { IfOk result (λ _. HasFlag table.now shop.now (u + 1) calls.new.items pass.new) }
{
    let _ = shop;
    match table.take(pass, u) {
        Some(call) => {
            let call = Call {
                worker: u,
                leaf: call.leaf,
                op: call.op,
            };
            calls.push(call)?;
            Ok(true)
        }
        None => Ok(false),
    }
}

/// Wins the flag, and looks at both workers. The shop and the calls that were taken, where the flag is won, there are
/// some, and exactly these are found pending.
pub(crate) fn win_finding(
    alloc: Global,
    table: &CoreTable<Spin>,
    pass: &mut Pass,
    pending: (bool, bool),
) -> Result<Option<(Shop, Vec<Call>)>, AllocError>
    requires two { IsForTwo table.now }
    requires own { HasNoFlag table.now pass.old }
    ensures flag { IfOk result (λ found. IfSome found (λ held.
        HasFlag table.now held.0 2 held.1.items pass.new × (0 < length held.1.items))) }
{
    if !pass.trapped() {
        return Ok(None);
    }
    let Some(shop) = table.win(pass) else {
        return Ok(None);
    };
    let mut calls = Vec::new(alloc);
    let first = look(table, pass, &shop, 0, &mut calls)?;
    let second = look(table, pass, &shop, 1, &mut calls)?;
    if (first, second) != pending || calls.is_empty() {
        return Ok(None);
    }
    Ok(Some((shop, calls)))
}

/// Answers the entries of the batch that the shop has served last, in its order.
fn answer_all(table: &CoreTable<Spin>, pass: &mut Pass, shop: &Shop, batch: &[Entry], number: u32)
    requires published { (before : List (List EntryOf)) × (before ++ batch.now ∷ [] ≡ shop.now)
        × (length before ≡ number) × Answers table.now before batch.now 0 pass.old }
    ensures answered { (before : List (List EntryOf)) × (before ++ batch.now ∷ [] ≡ shop.now)
        × Answers table.now before batch.now (length batch.now) pass.new }
{
    let _ = shop;
    for place in 0..batch.len() {
        let entry = batch[place];
        let receipt = Receipt {
            batch: number,
            place: place as u32,
            reply: entry.reply,
        };
        table.answer(pass, entry.worker, receipt);
    }
}

/// Serves the calls that were taken as one batch, publishes it, answers them, and lets go of the flag.
pub(crate) fn end_launch(
    alloc: Global,
    table: &CoreTable<Spin>,
    pass: &mut Pass,
    shop: Shop,
    calls: Vec<Call>,
) -> Result<(), AllocError>
    requires two { IsForTwo table.now }
    requires flag { HasFlag table.now shop 2 calls.items pass.old }
    requires some { 0 < length calls.items }
    ensures own { IfOk result (λ _. HasNoFlag table.now pass.new) }
{
    let number = shop.history().batches().len();
    if number > 20_000 {
        return Err(AllocError);
    }
    let (shop, batch) = serve_calls(alloc, shop, calls)?;
    let mut entries = Vec::new(alloc);
    entries.extend_from_slice(batch.entries())?;
    table.publish(pass, batch);
    answer_all(table, pass, &shop, entries.as_slice(), number as u32);
    table.release(pass, shop);
    Ok(())
}
