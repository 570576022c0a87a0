//! The turn of a free worker.
ghost use Rattle.std.specs.Prelude.{◌≡◌, ◌<◌, [], IfOk, IfErr};
ghost use Rattle.core_table.specs.Passes.{IsNotTrapped, IsPassOf, pass_view};
ghost use Rattle.worker_crew.specs.Words.{Idle};
ghost use Rattle.piece_board.specs.Boards.{desk_view};
ghost use Rattle.worker_crew.specs.declared.crew.Stop.TheVariants.{Memory};
ghost use Rattle.worker_crew.specs.Passes.{IsFree};
ghost use Rattle.worker_crew.specs.Workers.{me_seen, IsMeOf};
ghost use Rattle.worker_turns.specs.Stops.{IsStop};
ghost use Rattle.worker_turns.specs.Free.{node_of, pass_after, IsOwnNode, IsOther, IsFreeTurn};

use crate::attempts::{NodeAttempt, PieceAttempt, StealAttempt};
use crate::carry::run_to_idle;
use crate::pieces::{claim_and_run, pop_own_piece};
use core_table::{CoreTable, Pass};
use leaf_work::{LeafWork, WorkBrand};
use run_points::Pause;
use std::alloc::Global;
use std::sync::Wait;
use two_deques::Deck;
use worker_crew::laws::workers_that_are_not_trapped_are_free;
use worker_crew::{Crew, Me, Stop};

/// The outcome of a free worker's turn.
#[derive(Clone, Copy)]
pub enum Did {
    /// The worker claimed a node, and carried it on until its task was idle.
    Ran,
    /// The worker ran a piece.
    Piece,
    /// All tries found nothing, or the claim of what one found was refused.
    Nothing,
}

/// Tries to claim the node, if there is one.
fn claim_found<B: WorkBrand>(
    table: &CoreTable<B>,
    pass: &mut Pass,
    found: Option<u32>,
) -> NodeAttempt
    requires pass { IsPassOf table.now pass.old }
    requires free { IsFree (pass_view pass.old) }
    requires idle { (pass_view pass.old).task ≡ Idle }
    ensures pass { IsPassOf table.now pass.new }
    ensures found { node_of result ≡ found }
    ensures seen { pass_view pass.new ≡ pass_after result (pass_view pass.old) }
{
    let Some(node) = found else {
        return NodeAttempt::NoNode;
    };
    if table.claim(pass, node) {
        NodeAttempt::Claimed(node)
    } else {
        NodeAttempt::Refused(node)
    }
}

/// Pops the worker's own deque of nodes once, and tries to claim what it gives.
fn pop_own_node<G: Pause, B: WorkBrand, W: LeafWork>(
    crew: &Crew<G, B, W>,
    me: &mut Me,
) -> NodeAttempt
    requires me { IsMeOf crew.now me.old }
    requires free { IsFree (pass_view me.old.pass) }
    requires idle { (pass_view me.old.pass).task ≡ Idle }
    ensures me { IsMeOf crew.now me.new }
    ensures path { IsOwnNode result (me_seen me.old) (me_seen me.new) }
{
    let found = crew.decks.pop_core(&mut me.hand);
    claim_found(&crew.table, &mut me.pass, found)
}

/// Makes the turn's one steal, at the deque that `Tries` names next. A node is claimed and not yet carried on; a piece
/// is claimed and run.
fn steal_once<G: Pause, B: WorkBrand, W: LeafWork, R: Wait>(
    rt: &R,
    alloc: Global,
    crew: &Crew<G, B, W>,
    me: &mut Me,
) -> Result<StealAttempt, Stop>
    requires me { IsMeOf crew.now me.old }
    requires free { IsFree (pass_view me.old.pass) }
    requires idle { (pass_view me.old.pass).task ≡ Idle }
    ensures pass { IsPassOf crew.now.table me.new.pass }
    ensures me { IfOk result (λ _. IsMeOf crew.now me.new) }
    ensures path { IfOk result (λ gave. IsOther gave (me_seen me.old) (me_seen me.new)) }
    ensures failed { IfErr result (λ stop. stop ≡ Memory) }
{
    let Some(next) = me.tries.next_try() else {
        return Ok(StealAttempt::NoVictim);
    };
    match next.deck {
        Deck::CoreDeck => {
            let found = crew.decks.steal_core(rt, &mut me.hand, next.victim);
            Ok(StealAttempt::Node(claim_found(&crew.table, &mut me.pass, found)))
        }
        Deck::BatchDeck => {
            let found = crew.decks.steal_piece(rt, &mut me.hand, next.victim);
            Ok(StealAttempt::Piece(claim_and_run(alloc, crew, me, found)?))
        }
    }
}

/// One turn of a free worker. It looks at the stop word, and then tries in this order: a node of its own deque, a piece
/// of its own deque, and one steal. A claimed node is carried on until the task is idle again. A refused claim ends the
/// turn.
pub fn free_turn<G: Pause, B: WorkBrand, W: LeafWork, R: Wait>(
    rt: &R,
    alloc: Global,
    crew: &Crew<G, B, W>,
    me: &mut Me,
) -> Result<Did, Stop>
    requires me { IsMeOf crew.now me.old }
    requires free_pass { IsNotTrapped me.old.pass }
    requires idle { (pass_view me.old.pass).task ≡ Idle }
    requires free { (desk_view me.old.desk).posted ≡ [] }
    ensures pass { IsPassOf crew.now.table me.new.pass }
    ensures me { IfOk result (λ _. IsMeOf crew.now me.new) }
    ensures path { IfOk result (λ did. IsFreeTurn did (me_seen me.old) (me_seen me.new)) }
    ensures looked { IfOk result (λ _. (pass_view me.old.pass).stop_looks < (pass_view me.new.pass).stop_looks) }
    ensures free_pass { IfOk result (λ _. IsFree (pass_view me.new.pass)) }
    ensures idle { IfOk result (λ _. (pass_view me.new.pass).task ≡ Idle) }
    ensures free { IfOk result (λ _. (desk_view me.new.desk).posted ≡ []) }
    ensures stopped { IfErr result (λ stop. IsStop stop (pass_view me.old.pass) (pass_view me.new.pass)) }
{
    workers_that_are_not_trapped_are_free(&crew.table, &me.pass);
    if crew.table.stopped(&mut me.pass) {
        return Err(Stop::Stopped);
    }
    match pop_own_node(crew, me) {
        NodeAttempt::NoNode => {}
        NodeAttempt::Refused(_) => return Ok(Did::Nothing),
        NodeAttempt::Claimed(_) => {
            run_to_idle(rt, alloc, crew, me)?;
            return Ok(Did::Ran);
        }
    }
    match pop_own_piece(alloc, crew, me)? {
        PieceAttempt::Empty => {}
        PieceAttempt::Stale(_) => return Ok(Did::Nothing),
        PieceAttempt::Ran(_) => return Ok(Did::Piece),
    }
    match steal_once(rt, alloc, crew, me)? {
        StealAttempt::Node(NodeAttempt::Claimed(_)) => {
            run_to_idle(rt, alloc, crew, me)?;
            Ok(Did::Ran)
        }
        StealAttempt::Piece(PieceAttempt::Ran(_)) => Ok(Did::Piece),
        _ => Ok(Did::Nothing),
    }
}
