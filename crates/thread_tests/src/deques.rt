//! The deques of the workers.
ghost use Rattle.std.specs.Prelude.{◌≡◌, ◌≢◌, ◌<◌, ◌≤◌};
ghost use Rattle.two_deques.specs.Hands.{held, workers_of, IsHandOf};

use std::alloc::{AllocError, Global};
use std::sync::Wait;
use std::test::*;
use std::thread;
use test_rows::all_hold;
use two_deques::{Deck, Decks, Hand, Spot, Tries, Try};

/// What the owner, worker 0, pushes onto its deques and pops from them, and what a thief, worker 1, steals from there. A
/// piece is known by its place.
enum Step {
    Push(u32),
    Pop(Option<u32>),
    Steal(Option<u32>),
    PushPiece(u32),
    PopPiece(Option<u32>),
    StealPiece(Option<u32>),
}

/// The spot of a place in row 0.
fn spot_at(place: u32) -> Spot {
    Spot { row: 0, place }
}

/// The place of a spot.
fn place_of(spot: Option<Spot>) -> Option<u32> {
    match spot {
        Some(spot) => Some(spot.place),
        None => None,
    }
}

/// Whether the owner or the thief gets what the step says.
fn is_done<R: Wait>(rt: &R, decks: &Decks, owner: &mut Hand, thief: &mut Hand, step: &Step) -> bool
    requires owner { IsHandOf decks.now owner.old }
    requires thief { IsHandOf decks.now thief.old × ((held thief.old).worker ≡ 1) }
    ensures owner { IsHandOf decks.now owner.new }
    ensures thief { IsHandOf decks.now thief.new × ((held thief.new).worker ≡ 1) }
{
    match *step {
        Step::Push(node) => decks.push_core(owner, node).is_ok(),
        Step::Pop(node) => decks.pop_core(owner) == node,
        Step::Steal(node) => decks.steal_core(rt, thief, 0) == node,
        Step::PushPiece(place) => decks.push_piece(owner, spot_at(place)).is_ok(),
        Step::PopPiece(place) => place_of(decks.pop_piece(owner)) == place,
        Step::StealPiece(place) => place_of(decks.steal_piece(rt, thief, 0)) == place,
    }
}

/// The place of the first step that gives something else, if there is one.
fn first_other_step<R: Wait>(
    rt: &R,
    decks: &Decks,
    owner: &mut Hand,
    thief: &mut Hand,
    steps: &[Step],
) -> Option<usize>
    requires owner { IsHandOf decks.now owner.old }
    requires thief { IsHandOf decks.now thief.old × ((held thief.old).worker ≡ 1) }
{
    for (place, step) in steps.iter().enumerate() {
        if !is_done(rt, decks, owner, thief, step) {
            return Some(place);
        }
    }
    None
}

/// The same of two workers whose deques have this room for nodes, and that for pieces.
fn first_otherwise<R: Wait>(
    rt: &R,
    alloc: Global,
    room: u32,
    piece_room: u32,
    steps: &[Step],
) -> Result<Option<usize>, AllocError>
    requires { (room ≤ 160000) × (piece_room ≤ 160000) }
{
    let (decks, mut hands) = Decks::make(alloc, 2, room, piece_room)?;
    let mut thief = hands.remove(1);
    let mut owner = hands.remove(0);
    if owner.worker() != 0 || thief.worker() != 1 {
        return Ok(Some(0));
    }
    Ok(first_other_step(rt, &decks, &mut owner, &mut thief, steps))
}

const NODES: &[Step] = &[
    Step::Push(4),
    Step::Push(9),
    Step::Push(11),
    Step::Steal(Some(4)),
    Step::Pop(Some(11)),
    Step::Pop(Some(9)),
    Step::Pop(None),
    Step::Steal(None),
];

#[test]
fn the_owner_pops_the_newest_and_a_thief_takes_the_oldest(rt: HostRuntime) -> Result<(), Fail> {
    all_hold(first_otherwise(&rt, rt.alloc(), 8, 8, NODES)?)
}

const PIECES: &[Step] = &[
    Step::PushPiece(4),
    Step::PushPiece(9),
    Step::PushPiece(11),
    Step::Steal(None),
    Step::StealPiece(Some(4)),
    Step::Pop(None),
    Step::PopPiece(Some(11)),
    Step::PopPiece(Some(9)),
    Step::PopPiece(None),
    Step::StealPiece(None),
];

#[test]
fn pieces_have_deques_of_their_own(rt: HostRuntime) -> Result<(), Fail> {
    all_hold(first_otherwise(&rt, rt.alloc(), 8, 8, PIECES)?)
}

/// More nodes than there is room for.
const MANY: &[Step] = &[
    Step::Push(1),
    Step::Push(2),
    Step::Push(3),
    Step::Steal(Some(1)),
    Step::Push(4),
    Step::Push(5),
    Step::Steal(Some(2)),
    Step::Pop(Some(5)),
    Step::Pop(Some(4)),
    Step::Pop(Some(3)),
    Step::Pop(None),
];

#[test]
fn a_push_past_the_room_is_taken_where_there_is_memory(rt: HostRuntime) -> Result<(), Fail> {
    all_hold(first_otherwise(&rt, rt.alloc(), 2, 0, MANY)?)
}

/// Whether a try goes to a deque of nodes, and to whose.
fn is_core_and_victim(tried: Option<Try>) -> Option<(bool, u32)> {
    match tried {
        Some(tried) => Some((matches!(tried.deck, Deck::CoreDeck), tried.victim)),
        None => None,
    }
}

/// The tries of the first of three workers.
const TRIES: [(bool, u32); 5] = [(true, 1), (false, 1), (true, 2), (false, 2), (true, 1)];

/// The place of the first of its tries that goes elsewhere, if there is one.
fn first_other_try() -> Option<usize> {
    let mut tries = Tries::new(0, 3);
    for (place, wanted) in TRIES.iter().enumerate() {
        if is_core_and_victim(tries.next_try()) != Some(*wanted) {
            return Some(place);
        }
    }
    None
}

#[test]
fn tries_go_round_the_other_workers(rt: HostRuntime) -> Result<(), Fail> {
    assert!(rt; Tries::new(0, 1).next_try().is_none());
    all_hold(first_other_try())
}

/// One worker's part of a race: its hand, whom it steals from, and what it got.
#[derive(Drop)]
struct Racer {
    hand: Hand,
    victim: u32,
    got: Vec<u32>,
}

/// Pushes a node; in two turns of three it then steals or pops one.
fn race_once<R: Wait>(rt: &R, decks: &Decks, racer: &mut Racer, turn: u32) -> Result<(), AllocError>
    requires hand { IsHandOf decks.now racer.old.hand }
    requires victim { (racer.old.victim < workers_of decks.now)
        × (racer.old.victim ≢ (held racer.old.hand).worker) }
    requires turn { turn < 1000 }
    ensures hand { IsHandOf decks.now racer.new.hand }
    ensures victim { (racer.new.victim < workers_of decks.now)
        × (racer.new.victim ≢ (held racer.new.hand).worker) }
{
    let node = racer.victim % 2 * 1000 + turn;
    if decks.push_core(&mut racer.hand, node).is_err() {
        return Err(AllocError);
    }
    let found = if turn % 3 == 0 {
        decks.steal_core(rt, &mut racer.hand, racer.victim)
    } else if turn % 3 == 1 {
        decks.pop_core(&mut racer.hand)
    } else {
        None
    };
    if let Some(node) = found {
        racer.got.push(node)?;
    }
    Ok(())
}

/// The nodes that a worker gets in its turns, and where it then pops its deque empty.
fn race<R: Wait>(rt: &R, alloc: Global, decks: &Decks, hand: Hand) -> Result<Vec<u32>, AllocError>
    requires hand { IsHandOf decks.now hand }
    requires two { workers_of decks.now ≡ 2 }
{
    let mut racer = Racer {
        victim: 1 - hand.worker(),
        hand,
        got: Vec::new(alloc),
    };
    for turn in 0..1000 {
        race_once(rt, decks, &mut racer, turn)?;
    }
    for _ in 0..1000 {
        if let Some(node) = decks.pop_core(&mut racer.hand) {
            racer.got.push(node)?;
        }
    }
    Ok(racer.got)
}

/// Whether these lists have each of the first 2,000 nodes once.
fn are_all(alloc: Global, lists: Vec<Result<Vec<u32>, AllocError>>) -> Result<bool, AllocError> {
    let mut all = Vec::new(alloc);
    for list in lists {
        all.extend_from_slice(list?.as_slice())?;
    }
    all.sort()?;
    Ok(all.as_slice() == (0..2000).collect::<Vec<u32>>(alloc)?.as_slice())
}

#[test]
fn two_threads_get_each_node_once(rt: HostRuntime) -> Result<(), Fail> {
    let alloc = rt.alloc();
    let (decks, hands) = Decks::make(alloc, 2, 8, 8)?;
    let shared = &decks;
    let lists = thread::map_vec(&rt, hands, &|hand: Hand| race(&rt, alloc, shared, hand))?;
    assert!(rt; are_all(alloc, lists)?);
    assert!(rt; decks.into_stealers(alloc)?.len() == 2);
    Ok(())
}
