//! How the combiner hands out the pieces of a batch and collects their results.
ghost use Rattle.std.specs.Prelude.{◌≡◌, ◌<◌, ◌≤◌, ℕ, List, [], ◌∷◌, length, map, IfOk, IfErr};
ghost use Rattle.std.specs.List.{AllByRecursion};
ghost use Rattle.seq_objects.specs.Orders.{StrictlyAscends};
ghost use Rattle.seq_objects.specs.Pieces.{AllMeet};
ghost use Rattle.launch_batch.specs.declared.piece.PieceIn.{PieceIn as Input};
ghost use Rattle.launch_batch.specs.Pieces.{place_of, Meets};
ghost use Rattle.piece_board.specs.Boards.{desk_view};
ghost use Rattle.two_deques.specs.Hands.{held};
ghost use Rattle.core_table.specs.Passes.{IsPassOf, pass_view};
ghost use Rattle.worker_crew.specs.declared.crew.Stop.TheVariants.{Memory};
ghost use Rattle.worker_crew.specs.Workers.{IsMeOf, me_seen};
ghost use Rattle.worker_turns.specs.Pieces.{DrainsRow, after_posts, with_place};
ghost use Rattle.worker_turns.specs.Code.Popping.{PopsUntilEmpty, OnlyStole, after_pushes};
ghost use Rattle.worker_turns.specs.Launches.{ExecutesPieces, HandsOut, LooksWhileWaiting, spots_of};
ghost use Rattle.worker_turns.specs.Stops.{HasOnlyLooked, IsStop};

use crate::attempts::PieceAttempt;
use crate::back_off::back_off;
use crate::pieces::{pop_own_piece, steal_other_piece};
use arrayvec::ArrayVec;
use crossbeam_utils::Backoff;
use launch_batch::{PieceIn, PieceOut};
use leaf_work::{LeafWork, WorkBrand};
use limits::PLACES;
use run_points::Pause;
use std::alloc::Global;
use std::sync::Wait;
use two_deques::Spot;
use worker_crew::{Crew, Me, Stop};

/// The most pieces of a batch, each of which has a place of its own.
const MOST_PIECES: usize = PLACES as usize;

/// Posts each piece at its place in the worker's own row, and pushes its spot on the worker's own deque of pieces.
/// Returns the places.
fn post_all<G: Pause, B: WorkBrand, W: LeafWork>(
    crew: &Crew<G, B, W>,
    me: &mut Me,
    ins: Vec<PieceIn>,
) -> Result<ArrayVec<u32, MOST_PIECES>, Stop>
    requires me { IsMeOf crew.now me.old }
    requires free { (desk_view me.old.desk).posted ≡ [] }
    requires few { length ins.items ≤ PLACES }
    requires below { AllByRecursion (λ input. place_of input < PLACES) ins.items }
    requires ascend { StrictlyAscends (map place_of ins.items) }
    ensures me { IfOk result (λ _. IsMeOf crew.now me.new) }
    ensures places { IfOk result (λ places. places.items ≡ map place_of ins.items) }
    ensures desk { IfOk result (λ _. desk_view me.new.desk ≡ after_posts ins.items (desk_view me.old.desk)) }
    ensures pushed { IfOk result (λ places. (held me.new.hand).batch
        ≡ after_pushes (spots_of (held me.old.hand).worker places.items) (held me.old.hand).batch) }
    ensures core { (held me.new.hand).core ≡ (held me.old.hand).core }
    ensures pass { me.new.pass ≡ me.old.pass }
    ensures failed { IfErr result (λ stop. stop ≡ Memory) }
{
    let row = me.hand.worker();
    let mut places = ArrayVec::new();
    for input in ins {
        let place = input.place();
        places.push(place);
        crew.board.post(&mut me.desk, place, input);
        let spot = Spot { row, place };
        if crew.decks.push_piece(&mut me.hand, spot).is_err() {
            return Err(Stop::Memory);
        }
    }
    Ok(places)
}

/// Runs pieces of the worker's own deque until a pop gives none.
fn run_own<G: Pause, B: WorkBrand, W: LeafWork, R: Wait>(
    rt: &R,
    alloc: Global,
    crew: &Crew<G, B, W>,
    me: &mut Me,
) -> Result<(), Stop>
    requires me { IsMeOf crew.now me.old }
    ensures me { IfOk result (λ _. IsMeOf crew.now me.new) }
    ensures desk { IfOk result (λ _. DrainsRow 0 (desk_view me.old.desk) (desk_view me.new.desk)) }
    ensures emptied { IfOk result (λ _. PopsUntilEmpty (held me.old.hand).batch (held me.new.hand).batch) }
    ensures waits { IfOk result (λ _. LooksWhileWaiting (me_seen me.old) (me_seen me.new)) }
    ensures core { IfOk result (λ _. (held me.new.hand).core ≡ (held me.old.hand).core) }
    ensures pass { me.new.pass ≡ me.old.pass }
    ensures failed { IfErr result (λ stop. stop ≡ Memory) }
{
    for _ in rt.forever() {
        if let PieceAttempt::Empty = pop_own_piece(alloc, crew, me)? {
            return Ok(());
        }
    }
    unreachable!()
}

/// Waits for the result at `place`, the first place of the worker's own row that is not free. After each look that
/// finds no result, the worker looks at the stop word and tries to steal one piece.
fn collect_one<G: Pause, B: WorkBrand, W: LeafWork, R: Wait>(
    rt: &R,
    alloc: Global,
    crew: &Crew<G, B, W>,
    me: &mut Me,
    place: u32,
) -> Result<PieceOut, Stop>
    requires me { IsMeOf crew.now me.old }
    requires place { place < PLACES }
    requires first { (input : Input) × (rest : List (ℕ × Input))
        × ((desk_view me.old.desk).posted ≡ (place, input) ∷ rest) }
    ensures pass { IsPassOf crew.now.table me.new.pass }
    ensures me { IfOk result (λ _. IsMeOf crew.now me.new) }
    ensures meets { IfOk result (λ out. (input : Input) (rest : List (ℕ × Input))
        → (desk_view me.old.desk).posted ≡ (place, input) ∷ rest → Meets input out) }
    ensures desk { IfOk result (λ _. DrainsRow 1 (desk_view me.old.desk) (desk_view me.new.desk)) }
    ensures stole { IfOk result (λ _. OnlyStole (held me.old.hand).batch (held me.new.hand).batch) }
    ensures waits { IfOk result (λ _. LooksWhileWaiting (me_seen me.old) (me_seen me.new)) }
    ensures core { IfOk result (λ _. (held me.new.hand).core ≡ (held me.old.hand).core) }
    ensures seen { IfOk result (λ _. HasOnlyLooked (pass_view me.old.pass) (pass_view me.new.pass)) }
    ensures stopped { IfErr result (λ stop. IsStop stop (pass_view me.old.pass) (pass_view me.new.pass)) }
{
    let backoff = Backoff::new();
    for _ in rt.forever() {
        if let Some(out) = crew.board.collect(&mut me.desk, place) {
            return Ok(out);
        }
        if crew.table.stopped(&mut me.pass) {
            return Err(Stop::Stopped);
        }
        let other = steal_other_piece(rt, alloc, crew, me)?;
        back_off(&backoff, !matches!(other, PieceAttempt::Ran(_)));
    }
    unreachable!()
}

/// Collects the results of the worker's own row, in the order of `places`, into `outs`, which is empty.
fn collect_all<G: Pause, B: WorkBrand, W: LeafWork, R: Wait>(
    rt: &R,
    alloc: Global,
    crew: &Crew<G, B, W>,
    me: &mut Me,
    places: &[u32],
    mut outs: Vec<PieceOut>,
) -> Result<Vec<PieceOut>, Stop>
    requires me { IsMeOf crew.now me.old }
    requires empty { outs.items ≡ [] }
    requires posted { (ins : List Input) × (places.now ≡ map place_of ins)
        × ((desk_view me.old.desk).posted ≡ map with_place ins) × AllByRecursion (λ input. place_of input < PLACES) ins }
    ensures pass { IsPassOf crew.now.table me.new.pass }
    ensures me { IfOk result (λ _. IsMeOf crew.now me.new) }
    ensures meet { IfOk result (λ all. (ins : List Input)
        → (desk_view me.old.desk).posted ≡ map with_place ins → AllMeet Meets ins all.items) }
    ensures desk { IfOk result (λ _. DrainsRow (length places.now) (desk_view me.old.desk) (desk_view me.new.desk)) }
    ensures stole { IfOk result (λ _. OnlyStole (held me.old.hand).batch (held me.new.hand).batch) }
    ensures waits { IfOk result (λ _. LooksWhileWaiting (me_seen me.old) (me_seen me.new)) }
    ensures core { IfOk result (λ _. (held me.new.hand).core ≡ (held me.old.hand).core) }
    ensures seen { IfOk result (λ _. HasOnlyLooked (pass_view me.old.pass) (pass_view me.new.pass)) }
    ensures stopped { IfErr result (λ stop. IsStop stop (pass_view me.old.pass) (pass_view me.new.pass)) }
{
    for k in 0..places.len() {
        let out = collect_one(rt, alloc, crew, me, places[k])?;
        outs.push(out)?;
    }
    Ok(outs)
}

/// Hands out the pieces of a batch, helps to run them, and collects their results in `outs`, which is empty.
pub(crate) fn serve_pieces<G: Pause, B: WorkBrand, W: LeafWork, R: Wait>(
    rt: &R,
    alloc: Global,
    crew: &Crew<G, B, W>,
    me: &mut Me,
    ins: Vec<PieceIn>,
    outs: Vec<PieceOut>,
) -> Result<Vec<PieceOut>, Stop>
    requires me { IsMeOf crew.now me.old }
    requires empty { outs.items ≡ [] }
    requires free { (desk_view me.old.desk).posted ≡ [] }
    requires few { length ins.items ≤ PLACES }
    requires below { AllByRecursion (λ input. place_of input < PLACES) ins.items }
    requires ascend { StrictlyAscends (map place_of ins.items) }
    ensures pass { IsPassOf crew.now.table me.new.pass }
    ensures me { IfOk result (λ _. IsMeOf crew.now me.new) }
    ensures meet { IfOk result (λ all. AllMeet Meets ins.items all.items) }
    ensures desk { IfOk result (λ _.
        ExecutesPieces (map place_of ins.items) (desk_view me.old.desk) (desk_view me.new.desk)) }
    ensures handed { IfOk result (λ _.
        HandsOut (spots_of (desk_view me.old.desk).row (map place_of ins.items)) (held me.old.hand).batch (held me.new.hand).batch) }
    ensures waits { IfOk result (λ _. LooksWhileWaiting (me_seen me.old) (me_seen me.new)) }
    ensures core { IfOk result (λ _. (held me.new.hand).core ≡ (held me.old.hand).core) }
    ensures seen { IfOk result (λ _. HasOnlyLooked (pass_view me.old.pass) (pass_view me.new.pass)) }
    ensures stopped { IfErr result (λ stop. IsStop stop (pass_view me.old.pass) (pass_view me.new.pass)) }
{
    let places = post_all(crew, me, ins)?;
    run_own(rt, alloc, crew, me)?;
    collect_all(rt, alloc, crew, me, places.as_slice(), outs)
}
