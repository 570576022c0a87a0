//! How a worker finds a piece, claims it and runs it.
ghost use Rattle.std.specs.Prelude.{◌≡◌, ◌≢◌, ◌<◌, IfOk, IfErr, IfSome, IfNone};
ghost use Rattle.piece_board.specs.Boards.{desk_view, IsDeskOf};
ghost use Rattle.worker_crew.specs.declared.crew.Stop.TheVariants.{Memory};
ghost use Rattle.worker_crew.specs.Workers.{me_seen, IsMeOf};
ghost use Rattle.worker_turns.specs.Pieces.{spot_of, desk_after, piece_try, after_piece_try, IsOwnPiece, IsOtherPiece};

use crate::attempts::PieceAttempt;
use launch_batch::run_piece;
use leaf_work::{LeafWork, WorkBrand};
use run_points::{Pause, Point};
use std::alloc::Global;
use std::sync::Wait;
use two_deques::{Deck, Spot, Tries};
use worker_crew::{Crew, Me, Stop};

mod serving;

pub(crate) use serving::serve_pieces;

/// Claims the piece of the spot, if a spot was found, and runs it. A spot whose claim is refused is dropped.
pub(crate) fn claim_and_run<G: Pause, B: WorkBrand, W: LeafWork>(
    alloc: Global,
    crew: &Crew<G, B, W>,
    me: &mut Me,
    found: Option<Spot>,
) -> Result<PieceAttempt, Stop>
    requires desk { IsDeskOf crew.now.board me.old.desk }
    ensures desk { IsDeskOf crew.now.board me.new.desk }
    ensures found { IfOk result (λ tried. spot_of tried ≡ found) }
    ensures seen { IfOk result (λ tried. desk_view me.new.desk ≡ desk_after tried (desk_view me.old.desk)) }
    ensures same { (me.new.pass ≡ me.old.pass) × (me.new.hand ≡ me.old.hand) × (me.new.tries ≡ me.old.tries) }
    ensures failed { IfErr result (λ stop. stop ≡ Memory) }
{
    let Some(spot) = found else {
        return Ok(PieceAttempt::Empty);
    };
    let Some((claim, input)) = crew.board.claim(&mut me.desk, spot.row, spot.place) else {
        return Ok(PieceAttempt::Stale(spot));
    };
    crew.pause
        .at(Point::PieceStart(spot.place), me.hand.worker());
    let out = run_piece(alloc, input)?;
    crew.board.finish(&mut me.desk, claim, out);
    Ok(PieceAttempt::Ran(spot))
}

/// Pops the worker's own deque of pieces once, and claims and runs what it gives.
pub(crate) fn pop_own_piece<G: Pause, B: WorkBrand, W: LeafWork>(
    alloc: Global,
    crew: &Crew<G, B, W>,
    me: &mut Me,
) -> Result<PieceAttempt, Stop>
    requires me { IsMeOf crew.now me.old }
    ensures me { IfOk result (λ _. IsMeOf crew.now me.new) }
    ensures path { IfOk result (λ tried. IsOwnPiece tried (me_seen me.old) (me_seen me.new)) }
    ensures pass { me.new.pass ≡ me.old.pass }
    ensures failed { IfErr result (λ stop. stop ≡ Memory) }
{
    let found = crew.decks.pop_piece(&mut me.hand);
    claim_and_run(alloc, crew, me, found)
}

/// The next victim of a steal of pieces; tries at deques of nodes are skipped. `None`: there is no other worker.
fn next_victim(tries: &mut Tries) -> Option<u32>
    ensures victim { IfSome result (λ victim. (victim ≡ (piece_try tries.old).victim)
        × (tries.new ≡ after_piece_try tries.old)) }
    ensures other { IfSome result (λ victim. (victim < tries.old.workers) × (victim ≢ tries.old.worker)) }
    ensures none { IfNone result ((tries.old.workers ≡ 1) × (tries.new ≡ tries.old)) }
{
    let first = tries.next_try()?;
    match first.deck {
        Deck::BatchDeck => Some(first.victim),
        Deck::CoreDeck => match tries.next_try() {
            Some(second) => Some(second.victim),
            None => unreachable!(),
        },
    }
}

/// Tries to steal one piece, if there is another worker, and claims and runs what the steal gives.
pub(crate) fn steal_other_piece<G: Pause, B: WorkBrand, W: LeafWork, R: Wait>(
    rt: &R,
    alloc: Global,
    crew: &Crew<G, B, W>,
    me: &mut Me,
) -> Result<PieceAttempt, Stop>
    requires me { IsMeOf crew.now me.old }
    ensures me { IfOk result (λ _. IsMeOf crew.now me.new) }
    ensures path { IfOk result (λ tried. IsOtherPiece tried (me_seen me.old) (me_seen me.new)) }
    ensures pass { me.new.pass ≡ me.old.pass }
    ensures failed { IfErr result (λ stop. stop ≡ Memory) }
{
    let Some(victim) = next_victim(&mut me.tries) else {
        return Ok(PieceAttempt::Empty);
    };
    let found = crew.decks.steal_piece(rt, &mut me.hand, victim);
    claim_and_run(alloc, crew, me, found)
}
