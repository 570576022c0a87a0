//! The execution of a claimed node.
ghost use Rattle.std.specs.Prelude.{ℕ, ◌≡◌, Some, [], IfOk, IfErr};
ghost use Rattle.core_model.specs.declared.next.Next.TheVariants as acts;
ghost use Rattle.core_table.specs.Passes.{IsPassOf, job_in, next_in, pass_view};
ghost use Rattle.worker_crew.specs.Words.{Idle};
ghost use Rattle.piece_board.specs.Boards.{desk_view};
ghost use Rattle.table_rule.specs.DueActs.{number_told};
ghost use Rattle.worker_crew.specs.Passes.{IsFree};
ghost use Rattle.worker_crew.specs.Workers.{me_seen, IsMeOf};
ghost use Rattle.worker_turns.specs.Stops.{IsStop};
ghost use Rattle.worker_turns.specs.Free.{RanToIdle};

use crate::calling::make_call;
use core_model::Next;
use core_table::{CoreTable, Pass};
use leaf_work::{LeafWork, WorkBrand};
use run_points::{Pause, Point};
use seq_objects::value;
use sp_order::low_bits;
use std::alloc::Global;
use std::sync::Wait;
use worker_crew::{Crew, Me, Stop};

/// The number of the due work: that of its act; where the leaf has a source, the low 32 bits of the source's value.
fn number_due<B: WorkBrand>(table: &CoreTable<B>, pass: &mut Pass, leaf: u32, steps: u32) -> u32
    requires pass { IsPassOf table.now pass.old }
    requires due { (n : ℕ) × (start : ℕ) × (next_in table.now (pass_view pass.old) ≡ Some (acts.Spin n start leaf steps)) }
    ensures pass { IsPassOf table.now pass.new }
    ensures number { number_told steps ((job_in table.now).source leaf) (pass_view pass.new).told ≡ Some result }
    ensures seen { pass_view pass.new ≡ record (pass_view pass.old) { told = (pass_view pass.new).told } }
{
    if table.source(leaf).is_none() {
        return steps;
    }
    low_bits(table.source_value(pass))
}

/// Makes the worker's next act. A `Call` takes as long as the call.
fn make_act<G: Pause, B: WorkBrand, W: LeafWork, R: Wait>(
    rt: &R,
    alloc: Global,
    crew: &Crew<G, B, W>,
    me: &mut Me,
    act: Next,
) -> Result<(), Stop>
    requires me { IsMeOf crew.now me.old }
    requires free_pass { IsFree (pass_view me.old.pass) }
    requires due { next_in crew.now.table (pass_view me.old.pass) ≡ Some act }
    requires free { (desk_view me.old.desk).posted ≡ [] }
    ensures pass { IsPassOf crew.now.table me.new.pass }
    ensures me { IfOk result (λ _. IsMeOf crew.now me.new) }
    ensures free_pass { IfOk result (λ _. IsFree (pass_view me.new.pass)) }
    ensures free { IfOk result (λ _. (desk_view me.new.desk).posted ≡ []) }
    ensures carried { IfOk result (λ _. RanToIdle (me_seen me.old) (me_seen me.new)) }
    ensures stopped { IfErr result (λ stop. IsStop stop (pass_view me.old.pass) (pass_view me.new.pass)) }
{
    match act {
        Next::Start { leaf, .. } => {
            crew.table.tick(&mut me.pass);
            crew.pause.at(Point::LeafStart(leaf), me.hand.worker());
        }
        Next::End { .. } => {
            crew.table.tick(&mut me.pass);
        }
        Next::Open { .. } => {
            let node = crew.table.open_node(&mut me.pass);
            if crew.decks.push_core(&mut me.hand, node).is_err() {
                return Err(Stop::Memory);
            }
        }
        Next::Spin { leaf, steps, .. } => {
            let number = number_due(&crew.table, &mut me.pass, leaf, steps);
            let worked = crew.work.run(alloc, number)?;
            crew.table.keep(&mut me.pass, u64::from(worked));
        }
        Next::Call { leaf, op, .. } => {
            make_call(rt, alloc, crew, me, leaf, op)?;
        }
        Next::Got { reply, .. } => crew.table.keep(&mut me.pass, value(reply)),
        Next::Finish { .. } => crew.table.finish(&mut me.pass),
        Next::Arrive { .. } => {
            crew.table.arrive(&mut me.pass);
        }
    }
    Ok(())
}

/// Makes the worker's acts until its task is idle. A second arrival or the last side of a series continues with the block.
pub(crate) fn run_to_idle<G: Pause, B: WorkBrand, W: LeafWork, R: Wait>(
    rt: &R,
    alloc: Global,
    crew: &Crew<G, B, W>,
    me: &mut Me,
) -> Result<(), Stop>
    requires me { IsMeOf crew.now me.old }
    requires free_pass { IsFree (pass_view me.old.pass) }
    requires free { (desk_view me.old.desk).posted ≡ [] }
    ensures pass { IsPassOf crew.now.table me.new.pass }
    ensures me { IfOk result (λ _. IsMeOf crew.now me.new) }
    ensures free_pass { IfOk result (λ _. IsFree (pass_view me.new.pass)) }
    ensures idle { IfOk result (λ _. (pass_view me.new.pass).task ≡ Idle) }
    ensures free { IfOk result (λ _. (desk_view me.new.desk).posted ≡ []) }
    ensures carried { IfOk result (λ _. RanToIdle (me_seen me.old) (me_seen me.new)) }
    ensures stopped { IfErr result (λ stop. IsStop stop (pass_view me.old.pass) (pass_view me.new.pass)) }
{
    for _ in rt.forever() {
        let Some(act) = crew.table.next(&me.pass) else {
            return Ok(());
        };
        make_act(rt, alloc, crew, me, act)?;
    }
    unreachable!()
}
