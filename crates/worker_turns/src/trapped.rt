//! The turn of a trapped worker.
ghost use Rattle.std.specs.Prelude.{◌≡◌, ◌<◌, [], IfOk, IfErr};
ghost use Rattle.piece_board.specs.Boards.{desk_view};
ghost use Rattle.two_deques.specs.Hands.{held};
ghost use Rattle.core_model.specs.Operations.{op_of};
ghost use Rattle.core_table.specs.Passes.{IsPassOf, job_in, job_in_with, pass_view};
ghost use Rattle.worker_crew.specs.Passes.{IsTrapped};
ghost use Rattle.worker_crew.specs.Workers.{me_seen, IsMeOf};
ghost use Rattle.worker_turns.specs.Stops.{IsStop};
ghost use Rattle.worker_turns.specs.Trapped.{IsTrappedTurn, LeftOwnOp, StaysTrapped};
ghost use Rattle.worker_turns.specs.Free.{Helps};

use crate::attempts::PieceAttempt;
use crate::launching::launch;
use crate::pieces::{pop_own_piece, steal_other_piece};
use core_model::Receipt;
use leaf_work::{LeafWork, WorkBrand};
use run_points::{Pause, Point};
use std::alloc::Global;
use std::sync::Wait;
use worker_crew::{Crew, Me, Stop};

/// The outcome of a trapped worker's turn.
#[derive(Clone, Copy)]
pub enum Trapped {
    /// The worker left with this receipt, and is free again.
    Left(Receipt),
    /// The worker ran a piece.
    Piece,
    /// The worker won the flag and launched.
    Launched,
    /// All four tries failed.
    Nothing,
}

/// One turn of a trapped worker. It looks at the stop word, and then tries in this order: to run a piece of its own
/// deque; to leave; to win the flag and launch; and to steal one piece. The first that succeeds ends the turn.
#[tactic(auto, using(crate::proofs::CarryLemmas::Steps::front_none))]
pub fn trapped_turn<G: Pause, B: WorkBrand, W: LeafWork, R: Wait>(
    rt: &R,
    alloc: Global,
    crew: &Crew<G, B, W>,
    me: &mut Me,
) -> Result<Trapped, Stop>
    requires me { IsMeOf crew.now me.old }
    requires trapped { IsTrapped (pass_view me.old.pass) }
    requires free { (desk_view me.old.desk).posted ≡ [] }
    ensures pass { IsPassOf crew.now.table me.new.pass }
    ensures me { IfOk result (λ _. IsMeOf crew.now me.new) }
    ensures path { IfOk result (λ turn. IsTrappedTurn (job_in crew.now.table).workers turn
        (me_seen me.old) (me_seen me.new)) }
    ensures stays { IfOk result (λ turn. StaysTrapped turn (pass_view me.old.pass) (pass_view me.new.pass)) }
    ensures own { IfOk result (λ turn. LeftOwnOp (op_of (job_in_with B.work crew.now.table)) turn (pass_view me.new.pass)) }
    ensures looked { IfOk result (λ _. (pass_view me.old.pass).stop_looks < (pass_view me.new.pass).stop_looks) }
    ensures free { IfOk result (λ _. (desk_view me.new.desk).posted ≡ []) }
    ensures core { IfOk result (λ _. (held me.new.hand).core ≡ (held me.old.hand).core) }
    ensures helps { IfOk result (λ _. Helps (desk_view me.old.desk) (desk_view me.new.desk)) }
    ensures stopped { IfErr result (λ stop. IsStop stop (pass_view me.old.pass) (pass_view me.new.pass)) }
{
    if crew.table.stopped(&mut me.pass) {
        return Err(Stop::Stopped);
    }
    let own = pop_own_piece(alloc, crew, me)?;
    if let PieceAttempt::Ran(_) = own {
        return Ok(Trapped::Piece);
    }
    if let Some(receipt) = crew.table.leave(&mut me.pass) {
        return Ok(Trapped::Left(receipt));
    }
    if let Some(shop) = crew.table.win(&mut me.pass) {
        crew.pause.at(Point::Won, me.hand.worker());
        launch(rt, alloc, crew, me, shop)?;
        return Ok(Trapped::Launched);
    }
    let other = steal_other_piece(rt, alloc, crew, me)?;
    if let PieceAttempt::Ran(_) = other {
        return Ok(Trapped::Piece);
    }
    Ok(Trapped::Nothing)
}
