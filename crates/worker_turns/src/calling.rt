//! A call of a shared object, from its post to its receipt.
ghost use Rattle.std.specs.Prelude.{ℕ, ◌≡◌, ◌≤◌, ◌<◌, ◌+◌, Some, [], IfOk, IfErr};
ghost use Rattle.core_model.specs.declared.next.Next.TheVariants as acts;
ghost use Rattle.core_model.specs.Operations.{op_of};
ghost use Rattle.core_table.specs.Passes.{IsNotTrapped, IsPassOf, job_in, job_in_with, next_in, pass_view};
ghost use Rattle.worker_crew.specs.Words.{Got};
ghost use Rattle.piece_board.specs.Boards.{desk_view};
ghost use Rattle.two_deques.specs.Hands.{held};
ghost use Rattle.table_rule.specs.DueActs.{IsPostDue};
ghost use Rattle.table_rule.specs.Shows.{IsPrefix};
ghost use Rattle.worker_crew.specs.Passes.{IsFree};
ghost use Rattle.worker_turns.specs.Callings.{IsCallDue, IsServedAs, HasLeft, HasCalled};
ghost use Rattle.worker_crew.specs.Workers.{IsMeOf};
ghost use Rattle.worker_turns.specs.Stops.{IsStop};
ghost use Rattle.worker_turns.specs.Trapped.{IsJobSame};
ghost use Rattle.worker_turns.specs.Free.{Helps};

use crate::back_off::back_off;
use crate::trapped::{Trapped, trapped_turn};
use core_model::{Next, Receipt};
use core_table::{CoreTable, Pass};
use crossbeam_utils::Backoff;
use leaf_work::{LeafWork, WorkBrand};
use run_points::{Pause, Point};
use seq_objects::Op;
use sp_order::with_value;
use std::alloc::Global;
use std::sync::Wait;
use table_rule::OpRecord;
use worker_crew::laws::workers_that_are_not_trapped_are_free;
use worker_crew::{Crew, Me, Stop};

/// The receipt of a call, and the number of batches published at a look just after the post.
#[derive(Clone, Copy)]
pub struct Called {
    pub since: u64,
    pub receipt: Receipt,
}

/// The operation of the act that is due, a call of this leaf.
fn op_in_act<B: WorkBrand>(table: &CoreTable<B>, pass: &Pass, leaf: u32) -> Op
    requires pass { IsPassOf table.now pass.now }
    requires free { IsFree (pass_view pass.now) }
    requires due { IsCallDue leaf (next_in table.now (pass_view pass.now)) }
    ensures { (n : ℕ) × (start : ℕ) × (next_in table.now (pass_view pass.now) ≡ Some (acts.Call n start leaf result)) }
{
    match table.next(pass) {
        Some(
            Next::Call {
                node: _,
                start: _,
                leaf: _,
                op,
            },
        ) => op,
        _ => unreachable!(),
    }
}

/// The operation that the due call is posted with: that of its act; where the leaf has a source, with the source's value
/// as its argument.
fn op_to_post<B: WorkBrand>(table: &CoreTable<B>, pass: &mut Pass, leaf: u32, op: Op) -> Op
    requires pass { IsPassOf table.now pass.old }
    requires free { IsFree (pass_view pass.old) }
    requires due { (n : ℕ) × (start : ℕ) × (next_in table.now (pass_view pass.old) ≡ Some (acts.Call n start leaf op)) }
    ensures pass { IsPassOf table.now pass.new }
    ensures due { IsPostDue (job_in table.now).source (pass_view pass.new).told
        (next_in table.now (pass_view pass.new)) (record { leaf = leaf; op = result }) }
    ensures seen { pass_view pass.new ≡ record (pass_view pass.old) { told = (pass_view pass.new).told } }
{
    if table.source(leaf).is_none() {
        return op;
    }
    let value = table.source_value(pass);
    with_value(op, value)
}

/// Makes the call that is due, of this leaf and by its act: posts it, and takes trapped turns until the worker leaves with
/// its receipt.
#[tactic(auto, using(crate::proofs::CarryLemmas::Steps::front_none, crate::proofs::CarryLemmas::Steps::front_then))]
pub(crate) fn make_call<G: Pause, B: WorkBrand, W: LeafWork, R: Wait>(
    rt: &R,
    alloc: Global,
    crew: &Crew<G, B, W>,
    me: &mut Me,
    leaf: u32,
    op: Op,
) -> Result<Called, Stop>
    requires me { IsMeOf crew.now me.old }
    requires free_pass { IsFree (pass_view me.old.pass) }
    requires due { (n : ℕ) × (start : ℕ)
        × (next_in crew.now.table (pass_view me.old.pass) ≡ Some (acts.Call n start leaf op)) }
    requires free { (desk_view me.old.desk).posted ≡ [] }
    ensures pass { IsPassOf crew.now.table me.new.pass }
    ensures me { IfOk result (λ _. IsMeOf crew.now me.new) }
    ensures stands { IfOk result (λ called. IsServedAs (op_of (job_in_with B.work crew.now.table))
        leaf (pass_view me.old.pass).worker called.receipt (pass_view me.new.pass).book_seen) }
    ensures first { IfOk result (λ called. (pass_view me.new.pass).first_since ≡ Some called.since) }
    ensures soon { IfOk result (λ called. called.receipt.batch ≤ called.since + 1) }
    ensures late { IfOk result (λ called. (pass_view me.old.pass).greatest ≤ called.receipt.batch) }
    ensures left { IfOk result (λ called. HasLeft leaf called.receipt (pass_view me.old.pass) (pass_view me.new.pass)
        × ((pass_view me.new.pass).call ≡ Got called.receipt)) }
    ensures events { IfOk result (λ called. HasCalled called.receipt (pass_view me.old.pass) (pass_view me.new.pass)) }
    ensures looked { IfOk result (λ _. (pass_view me.old.pass).stop_looks < (pass_view me.new.pass).stop_looks) }
    ensures free_pass { IfOk result (λ _. IsFree (pass_view me.new.pass)) }
    ensures longer { IfOk result (λ _. IsPrefix (pass_view me.old.pass).book_seen (pass_view me.new.pass).book_seen) }
    ensures job { IfOk result (λ _. IsJobSame (pass_view me.old.pass) (pass_view me.new.pass)) }
    ensures free { IfOk result (λ _. (desk_view me.new.desk).posted ≡ []) }
    ensures core { IfOk result (λ _. (held me.new.hand).core ≡ (held me.old.hand).core) }
    ensures helps { IfOk result (λ _. Helps (desk_view me.old.desk) (desk_view me.new.desk)) }
    ensures stopped { IfErr result (λ stop. IsStop stop (pass_view me.old.pass) (pass_view me.new.pass)) }
{
    let op = op_to_post(&crew.table, &mut me.pass, leaf, op);
    crew.table.post(&mut me.pass, OpRecord { leaf, op });
    let since = crew.table.since(&mut me.pass);
    crew.pause.at(Point::Posted(leaf), me.hand.worker());
    let backoff = Backoff::new();
    for _ in rt.forever() {
        let turn = trapped_turn(rt, alloc, crew, me)?;
        if let Trapped::Left(receipt) = turn {
            return Ok(Called { since, receipt });
        }
        back_off(&backoff, matches!(turn, Trapped::Nothing));
    }
    unreachable!()
}

/// Makes the call of a leaf, with the operation that the table names: posts it, and takes trapped turns until the
/// worker leaves with its receipt.
pub fn call<G: Pause, B: WorkBrand, W: LeafWork, R: Wait>(
    rt: &R,
    alloc: Global,
    crew: &Crew<G, B, W>,
    me: &mut Me,
    leaf: u32,
) -> Result<Called, Stop>
    requires me { IsMeOf crew.now me.old }
    requires free_pass { IsNotTrapped me.old.pass }
    requires due { IsCallDue leaf (next_in crew.now.table (pass_view me.old.pass)) }
    requires free { (desk_view me.old.desk).posted ≡ [] }
    ensures pass { IsPassOf crew.now.table me.new.pass }
    ensures me { IfOk result (λ _. IsMeOf crew.now me.new) }
    ensures stands { IfOk result (λ called. IsServedAs (op_of (job_in_with B.work crew.now.table))
        leaf (pass_view me.old.pass).worker called.receipt (pass_view me.new.pass).book_seen) }
    ensures first { IfOk result (λ called. (pass_view me.new.pass).first_since ≡ Some called.since) }
    ensures soon { IfOk result (λ called. called.receipt.batch ≤ called.since + 1) }
    ensures late { IfOk result (λ called. (pass_view me.old.pass).greatest ≤ called.receipt.batch) }
    ensures left { IfOk result (λ called. HasLeft leaf called.receipt (pass_view me.old.pass) (pass_view me.new.pass)
        × ((pass_view me.new.pass).call ≡ Got called.receipt)) }
    ensures events { IfOk result (λ called. HasCalled called.receipt (pass_view me.old.pass) (pass_view me.new.pass)) }
    ensures looked { IfOk result (λ _. (pass_view me.old.pass).stop_looks < (pass_view me.new.pass).stop_looks) }
    ensures free_pass { IfOk result (λ _. IsFree (pass_view me.new.pass)) }
    ensures longer { IfOk result (λ _. IsPrefix (pass_view me.old.pass).book_seen (pass_view me.new.pass).book_seen) }
    ensures job { IfOk result (λ _. IsJobSame (pass_view me.old.pass) (pass_view me.new.pass)) }
    ensures free { IfOk result (λ _. (desk_view me.new.desk).posted ≡ []) }
    ensures core { IfOk result (λ _. (held me.new.hand).core ≡ (held me.old.hand).core) }
    ensures helps { IfOk result (λ _. Helps (desk_view me.old.desk) (desk_view me.new.desk)) }
    ensures stopped { IfErr result (λ stop. IsStop stop (pass_view me.old.pass) (pass_view me.new.pass)) }
{
    workers_that_are_not_trapped_are_free(&crew.table, &me.pass);
    let op = op_in_act(&crew.table, &me.pass, leaf);
    make_call(rt, alloc, crew, me, leaf, op)
}
