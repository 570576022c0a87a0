//! A launch: the combiner serves the pending calls as one batch.
ghost use Rattle.std.specs.Prelude.{ℕ, ◌≡◌, ◌≢◌, ◌<◌, [], Some, IfOk, IfErr, IfSome, IfNone};
ghost use Rattle.table_rule.specs.declared.status.TheConstants.{PENDING};
ghost use Rattle.table_rule.specs.declared.view.HoldView.{HoldView};
ghost use Rattle.launch_batch.specs.Calls.{MayServe};
ghost use Rattle.piece_board.specs.Boards.{desk_view};
ghost use Rattle.core_table.specs.Passes.{IsPassOf, job_in, pass_view};
ghost use Rattle.worker_crew.specs.declared.crew.Stop.TheVariants.{Memory};
ghost use Rattle.table_rule.specs.Passes.{new_hold, taking, skipping};
ghost use Rattle.worker_turns.specs.Holds.{AreFit};
ghost use Rattle.worker_crew.specs.Workers.{me_seen, IsMeOf};
ghost use Rattle.worker_turns.specs.Launches.{Launches};
ghost use Rattle.worker_turns.specs.Stops.{IsStop};
ghost use Rattle.worker_turns.specs.Code.Serving.{Holds, HasLooked, HasTaken, answered_all, IsNewHold, IsAnswerable, ServesBatch};

use crate::pieces::serve_pieces;
use batch_history::Entry;
use core_model::Receipt;
use core_table::{CoreTable, Pass};
use launch_batch::Shop;
use leaf_work::{LeafWork, WorkBrand};
use run_points::Pause;
use seq_objects::Call;
use sp_order::laws::plan_stands_for_tree;
use std::alloc::Global;
use std::sync::Wait;
use worker_crew::{Crew, Me, Stop};

/// Looks at worker `u`, the next in order, and takes its call if that is pending. If the calls taken before can be
/// served as one batch, then so can they with this call.
fn take_pending<B: WorkBrand>(table: &CoreTable<B>, pass: &mut Pass, u: u32) -> Option<Call>
    requires pass { IsPassOf table.now pass.old }
    requires below { u < (job_in table.now).workers }
    requires next { (h : HoldView) × ((pass_view pass.old).hold ≡ Some h) × (u ≡ h.looks) }
    requires fit { Holds AreFit (pass_view pass.old).hold }
    ensures pass { IsPassOf table.now pass.new }
    ensures took { IfSome result (λ call. (call.worker ≡ u) × (pass_view pass.new ≡ taking call (pass_view pass.old))) }
    ensures passed { IfNone result ((status : ℕ) × (status ≢ PENDING)
        × (pass_view pass.new ≡ skipping u status (pass_view pass.old))) }
    ensures fit { Holds AreFit (pass_view pass.new).hold }
{
    plan_stands_for_tree();
    let call = table.take(pass, u)?;
    Some(Call {
        worker: u,
        leaf: call.leaf,
        op: call.op,
    })
}

/// Looks at each worker once, in order from 0, and takes each call that is pending at its look. Returns the calls in the
/// vector that is given, which is empty.
fn collect_pending<B: WorkBrand>(
    table: &CoreTable<B>,
    pass: &mut Pass,
    workers: u32,
    mut calls: Vec<Call>,
) -> Result<Vec<Call>, Stop>
    requires pass { IsPassOf table.now pass.old }
    requires empty { calls.items ≡ [] }
    requires won { Holds IsNewHold (pass_view pass.old).hold }
    requires workers { workers ≡ (job_in table.now).workers }
    ensures pass { IsPassOf table.now pass.new }
    ensures looked { IfOk result (λ taken. HasLooked workers taken.items (pass_view pass.old) (pass_view pass.new)) }
    ensures fit { IfOk result (λ _. Holds AreFit (pass_view pass.new).hold) }
    ensures failed { IfErr result (λ stop. stop ≡ Memory) }
{
    for u in 0..workers {
        if let Some(call) = take_pending(table, pass, u) {
            calls.push(call)?;
        }
    }
    Ok(calls)
}

/// Answers the calls of the batch in batch order. `number` is the batch's number.
fn answer_all<B: WorkBrand>(table: &CoreTable<B>, pass: &mut Pass, batch: &[Entry], number: u32)
    requires pass { IsPassOf table.now pass.old }
    requires published { Holds (IsAnswerable number batch.now) (pass_view pass.old).hold }
    ensures pass { IsPassOf table.now pass.new }
    ensures answered { pass_view pass.new ≡ answered_all number batch.now (pass_view pass.old) }
{
    for place in 0..batch.len() {
        let entry = batch[place];
        let receipt = Receipt {
            batch: number,
            place: place as u32,
            reply: entry.reply,
        };
        table.answer(pass, entry.worker, receipt);
    }
}

/// Serves the calls as one batch, whose pieces all workers may run, publishes it, and answers the calls. Returns the
/// shop.
fn serve_batch<G: Pause, B: WorkBrand, W: LeafWork, R: Wait>(
    rt: &R,
    alloc: Global,
    crew: &Crew<G, B, W>,
    me: &mut Me,
    shop: Shop,
    calls: Vec<Call>,
) -> Result<Shop, Stop>
    requires me { IsMeOf crew.now me.old }
    requires free { (desk_view me.old.desk).posted ≡ [] }
    requires hold { HasTaken (job_in crew.now.table).workers calls.items shop (pass_view me.old.pass).hold }
    requires may { MayServe shop calls.items }
    ensures pass { IsPassOf crew.now.table me.new.pass }
    ensures me { IfOk result (λ _. IsMeOf crew.now me.new) }
    ensures batch { IfOk result (λ after. ServesBatch shop calls.items after (me_seen me.old) (me_seen me.new)) }
    ensures stopped { IfErr result (λ stop. IsStop stop (pass_view me.old.pass) (pass_view me.new.pass)) }
{
    let number = shop.history().batches().len();
    let (mut opened, ins) = shop.begin(alloc, calls)?;
    let room = opened.spare_outs(alloc);
    let outs = serve_pieces(rt, alloc, crew, me, ins, room)?;
    let (shop, batch) = opened.end(alloc, outs)?;
    crew.table.publish(&mut me.pass, batch);
    let entries = shop.history().batches()[number].entries();
    answer_all(&crew.table, &mut me.pass, entries, number as u32);
    Ok(shop)
}

/// The combiner's work after it won the flag: takes the calls that it finds pending, serves them as one batch, answers
/// them, and releases the flag. If it finds none, it only releases the flag.
pub fn launch<G: Pause, B: WorkBrand, W: LeafWork, R: Wait>(
    rt: &R,
    alloc: Global,
    crew: &Crew<G, B, W>,
    me: &mut Me,
    mut shop: Shop,
) -> Result<(), Stop>
    requires me { IsMeOf crew.now me.old }
    requires free { (desk_view me.old.desk).posted ≡ [] }
    requires won { (pass_view me.old.pass).hold ≡ Some (new_hold shop) }
    ensures pass { IsPassOf crew.now.table me.new.pass }
    ensures me { IfOk result (λ _. IsMeOf crew.now me.new) }
    ensures launched { IfOk result (λ _. Launches (job_in crew.now.table).workers shop
        (me_seen me.old) (me_seen me.new)) }
    ensures stopped { IfErr result (λ stop. IsStop stop (pass_view me.old.pass) (pass_view me.new.pass)) }
{
    let room = shop.spare_calls(alloc);
    let calls = collect_pending(&crew.table, &mut me.pass, crew.workers, room)?;
    if calls.is_empty() {
        shop.keep_calls(calls);
        crew.table.release(&mut me.pass, shop);
        return Ok(());
    }
    let shop = serve_batch(rt, alloc, crew, me, shop, calls)?;
    crew.table.release(&mut me.pass, shop);
    Ok(())
}
