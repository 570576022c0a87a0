//! Construction of a crew, and of its workers, at the start of a run.
ghost use Rattle.std.specs.Prelude.{◌≡◌, ◌*◌, ◌<◌, ◌≤◌, ℕ, length, slice_index_or, IsSome, IfOk};
ghost use Rattle.std.specs.List.{count_by};
ghost use Rattle.limits.specs.declared.TheConstants.{MOST_WORKERS, MOST_LEAVES};
ghost use Rattle.core_table.specs.declared.table.Pass.{Pass as PassOf};
ghost use Rattle.core_table.specs.Passes.{IsPassOf, job_in, pass_view, planned_in};
ghost use Rattle.table_rule.specs.Passes.{unused};
ghost use Rattle.two_deques.specs.Hands.{core_room_of, batch_room_of};
ghost use Rattle.two_deques.specs.Hands.{held, workers_of, fresh_hand, IsHandOf, AreHands};
ghost use Rattle.piece_board.specs.Boards.{workers_of as rows_of, AreDesks};
ghost use Rattle.worker_crew.specs.Opening.{is_call, opening_hand, HaveRooms, AreNewPasses, AreAtStart};

use crate::batch_pieces::BatchPieces;
use crate::crew::{Crew, Me};
use core_table::{CoreTable, Pass};
use leaf_work::{BrandedWork, LeafWork, WorkBrand};
use piece_board::{Board, Desk};
use run_points::Pause;
use seq_objects::Act;
use sp_order::Job;
use std::alloc::{AllocError, Global};
use two_deques::{Decks, Hand, Rooms, Tries};

/// The pushes that a deque of pieces is sure to take for each leaf that calls. A launch pushes each piece of its batch
/// once, on the launcher's own deque. A batch that calls a queue has a piece for each of the eight shards, however few
/// its calls are; of any other structure it has at most one piece for each call. So the batches of a run never have more
/// pieces than this many for each call, and no push of a piece is refused.
pub const PUSHES_A_CALL: u32 = 8;

/// The number of leaves whose act is a call.
fn count_calls(acts: &[Act]) -> u32
    requires most { length acts.now ≤ MOST_LEAVES }
    ensures { result ≡ count_by is_call acts.now }
{
    let mut count = 0;
    for at in 0..acts.len() {
        if matches!(acts[at], Act::Call(_)) {
            count += 1;
        }
    }
    count
}

/// The rooms of the deques of a run over this table. Over its lifetime, a deque of nodes is sure to take one push for
/// each node of the job, and a deque of pieces `PUSHES_A_CALL` for each leaf that calls.
///
/// Memory: none.
pub fn deck_rooms<B: WorkBrand>(table: &CoreTable<B>) -> Rooms
    ensures core { result.core ≡ (job_in table.now).plan.count }
    ensures batch { result.batch ≡ PUSHES_A_CALL * count_by is_call (planned_in table.now).acts }
    ensures most { (result.core ≤ 2 * MOST_LEAVES) × (result.batch ≤ PUSHES_A_CALL * MOST_LEAVES) }
{
    let job = table.job();
    Rooms {
        core: job.nodes(),
        batch: PUSHES_A_CALL * count_calls(job.acts()),
    }
}

/// The hand with which a worker begins. Worker 0 first pushes node 0, the root.
fn opening(decks: &Decks, hand: Hand) -> Result<Hand, AllocError>
    requires hand { IsHandOf decks.now hand }
    requires fresh { held hand ≡ fresh_hand (held hand).worker (workers_of decks.now) }
    ensures hand { IfOk result (λ own. IsHandOf decks.now own) }
    ensures opening { IfOk result (λ own.
        held own ≡ opening_hand (held hand).worker (workers_of decks.now)) }
{
    let mut hand = hand;
    if hand.worker() == 0 && decks.push_core(&mut hand, 0).is_err() {
        return Err(AllocError);
    }
    Ok(hand)
}

/// The workers' initial states, indexed by worker.
fn make_workers<G: Pause, B: WorkBrand, W: LeafWork>(
    alloc: Global,
    crew: &Crew<G, B, W>,
    passes: Vec<Pass>,
    hands: Vec<Hand>,
    desks: Vec<Desk<BatchPieces>>,
) -> Result<Vec<Me>, AllocError>
    requires count { length passes.items ≡ crew.now.workers }
    requires passes { (w : ℕ) (pass : PassOf) → w < crew.now.workers
        → pass ≡ slice_index_or passes.items w pass
        → IsPassOf crew.now.table pass × (pass_view pass ≡ unused w) }
    requires hands { AreHands crew.now.decks hands.items }
    requires desks { AreDesks crew.now.board desks.items }
    ensures { IfOk result (λ mes. AreAtStart crew.now mes.items) }
{
    let mut passes = passes;
    let mut hands = hands;
    let mut desks = desks;
    let mut mes = Vec::new(alloc);
    for worker in 0..crew.workers {
        mes.push(Me {
            pass: passes.remove(0),
            hand: opening(&crew.decks, hands.remove(0))?,
            desk: desks.remove(0),
            tries: Tries::new(worker, crew.workers),
        })?;
    }
    Ok(mes)
}

impl<'a, G: Pause, B: WorkBrand, W: LeafWork> Crew<'a, G, B, W> {
    /// The crew of a non-empty job, whose leaves of work run `work`, and its workers, indexed by worker. Node 0 is on
    /// the deque of worker 0. Over its lifetime, each deque of nodes is sure to take one push for each node of the job,
    /// and each deque of pieces `PUSHES_A_CALL` for each leaf that calls.
    pub fn make(
        alloc: Global,
        job: &Job,
        workers: u32,
        pause: &'a G,
        work: &'a W,
    ) -> Result<(Crew<'a, G, B, W>, Vec<Me>), AllocError>
        requires meaning { W.meaning work.now ≡ B.work }
        requires leaves { IsSome job.now.shape }
        requires some_workers { 0 < workers }
        requires few_workers { workers ≤ MOST_WORKERS }
        ensures job { IfOk result (λ made. (planned_in made.0.table ≡ job.now)
            × ((job_in made.0.table).workers ≡ workers)) }
        ensures workers { IfOk result (λ made. (made.0.workers ≡ workers)
            × (workers_of made.0.decks ≡ workers)) }
        ensures rooms { IfOk result (λ made.
            (core_room_of made.0.decks ≡ (job_in made.0.table).plan.count)
            × (batch_room_of made.0.decks ≡ PUSHES_A_CALL * count_by is_call job.now.acts)) }
        ensures start { IfOk result (λ made. AreAtStart made.0 made.1.items) }
    {
        let (table, passes) = CoreTable::<B>::make(alloc, job, workers)?;
        let rooms = deck_rooms(&table);
        let (decks, hands) = Decks::make(alloc, workers, rooms.core, rooms.batch)?;
        Crew::of(alloc, workers, table, passes, decks, hands, pause, work)
    }

    /// The crew of a table and of deques that were just made, with the rooms of `deck_rooms`, and its workers, indexed
    /// by worker. It is the crew of `make`, whoever made its deques.
    pub fn of(
        alloc: Global,
        workers: u32,
        table: CoreTable<B>,
        passes: Vec<Pass>,
        decks: Decks,
        hands: Vec<Hand>,
        pause: &'a G,
        work: &'a W,
    ) -> Result<(Crew<'a, G, B, W>, Vec<Me>), AllocError>
        requires meaning { W.meaning work.now ≡ B.work }
        requires workers { ((job_in table).workers ≡ workers) × (0 < workers) × (workers ≤ MOST_WORKERS) }
        requires passes { AreNewPasses table workers passes.items }
        requires decks { workers_of decks ≡ workers }
        requires rooms { HaveRooms table decks }
        requires hands { AreHands decks hands.items }
        ensures table { IfOk result (λ made. made.0.table ≡ table) }
        ensures decks { IfOk result (λ made. made.0.decks ≡ decks) }
        ensures workers { IfOk result (λ made. made.0.workers ≡ workers) }
        ensures rooms { IfOk result (λ made. HaveRooms made.0.table made.0.decks) }
        ensures start { IfOk result (λ made. AreAtStart made.0 made.1.items) }
    {
        let (board, desks) = Board::make(alloc, workers)?;
        let crew = Crew {
            table,
            decks,
            board,
            workers,
            pause,
            work: BrandedWork::of(work),
        };
        let mes = make_workers(alloc, &crew, passes, hands, desks)?;
        Ok((crew, mes))
    }
}
