//! Two workers of a running table, each in a thread, that claim whatever node they find ready.
ghost use Rattle.std.specs.Prelude.{◌≡◌, ◌≢◌, [], None, Some, IfOk};
ghost use Rattle.core_table.specs.Passes.{job_in, pass_view, next_in, IsNotTrapped};
ghost use Rattle.piece_board.specs.Boards.{desk_view};
ghost use Rattle.two_deques.specs.Hands.{held};
ghost use Rattle.worker_crew.specs.Workers.{IsMeOf};

use crate::steps::{claim, go_on};
use core_model::Next;
use leaf_work::Spin;
use run_points::{Pause, Point};
use std::alloc::Global;
use std::sync::Wait;
use worker_turns::{Called, Crew, Me, Stop, call};

/// A call that a worker made: its leaf, and what was answered.
#[derive(Clone, Copy)]
pub(crate) struct Made {
    pub(crate) leaf: u32,
    pub(crate) called: Called,
}

/// Makes this act, if it is a call, and goes on.
fn make_call<G: Pause, R: Wait>(
    rt: &R,
    alloc: Global,
    crew: &Crew<G, Spin, Spin>,
    me: &mut Me,
    act: Next,
    made: &mut Vec<Made>,
) -> Result<(), Stop>
    requires me { IsMeOf crew.now me.old }
    requires flag { (pass_view me.old.pass).hold ≡ None }
    requires row { (desk_view me.old.desk).posted ≡ [] }
    requires free { IsNotTrapped me.old.pass }
    requires due { next_in crew.now.table (pass_view me.old.pass) ≡ Some act }
    ensures me { IfOk result (λ _.
        IsMeOf crew.now me.new) }
    ensures flag { IfOk result (λ _. (pass_view me.new.pass).hold ≡ None) }
    ensures row { IfOk result (λ _. (desk_view me.new.desk).posted ≡ []) }
{
    if let Next::Call { leaf, .. } = act {
        let called = call(rt, alloc, crew, me, leaf)?;
        made.push(Made { leaf, called })?;
        go_on(&crew.table, &mut me.pass);
    }
    Ok(())
}

/// Claims the node, if it is ready, and carries it on until the task is idle.
fn try_node<G: Pause, R: Wait>(
    rt: &R,
    alloc: Global,
    crew: &Crew<G, Spin, Spin>,
    me: &mut Me,
    node: u32,
    made: &mut Vec<Made>,
) -> Result<(), Stop>
    requires me { IsMeOf crew.now me.old }
    requires flag { (pass_view me.old.pass).hold ≡ None }
    requires row { (desk_view me.old.desk).posted ≡ [] }
    ensures me { IfOk result (λ _.
        IsMeOf crew.now me.new) }
    ensures flag { IfOk result (λ _. (pass_view me.new.pass).hold ≡ None) }
    ensures row { IfOk result (λ _. (desk_view me.new.desk).posted ≡ []) }
{
    if !claim(&crew.table, &mut me.pass, node) || me.pass.trapped() {
        return Ok(());
    }
    match crew.table.next(&me.pass) {
        Some(act) => make_call(rt, alloc, crew, me, act, made),
        None => Ok(()),
    }
}

/// More nodes than a job of these tests has.
const NODES: u32 = 400;

/// Lets a worker try the nodes round and round until it has made so many calls, or the root is done.
fn work_to<G: Pause, R: Wait>(
    rt: &R,
    alloc: Global,
    crew: &Crew<G, Spin, Spin>,
    me: &mut Me,
    calls: usize,
) -> Result<Vec<Made>, Stop>
    requires me { IsMeOf crew.now me.old }
    requires flag { (pass_view me.old.pass).hold ≡ None }
    requires row { (desk_view me.old.desk).posted ≡ [] }
    ensures me { IfOk result (λ _.
        IsMeOf crew.now me.new) }
    ensures flag { IfOk result (λ _. (pass_view me.new.pass).hold ≡ None) }
    ensures row { IfOk result (λ _. (desk_view me.new.desk).posted ≡ []) }
{
    let mut made = Vec::new(alloc);
    let mut node = 0;
    for _ in rt.forever() {
        if made.len() >= calls || crew.table.root_done(&mut me.pass) {
            return Ok(made);
        }
        try_node(rt, alloc, crew, me, node, &mut made)?;
        node = (node + 1) % NODES;
    }
    unreachable!()
}

/// Takes a piece of worker 0's launch, and ends as a worker does that is out of memory: it sets the stop word, and never
/// finishes the piece.
fn leave_a_piece<G: Pause, R: Wait>(rt: &R, crew: &Crew<G, Spin, Spin>, me: &mut Me) -> Stop
    requires me { IsMeOf crew.now me.old }
    requires other { (held me.old.hand).worker ≢ 0 }
{
    for _ in rt.forever() {
        if let Some(spot) = crew.decks.steal_piece(rt, &mut me.hand, 0) {
            if crew
                .board
                .claim(&mut me.desk, spot.row, spot.place)
                .is_some()
            {
                crew.pause.at(Point::PieceStart(spot.place), 1);
                crew.table.stop(&mut me.pass);
                return Stop::Memory;
            }
        }
    }
    unreachable!()
}

/// What the workers do in a run.
#[derive(Clone, Copy)]
pub(crate) enum Plan {
    /// Each tries the nodes until it has made so many calls, or the root is done.
    Call(usize),
    /// Worker 0 makes one call, and the other takes a piece of its launch, and leaves it.
    LeaveAPiece,
}

/// What threads share of a run, seen by a test that starts them over any type that can be shared.
pub(crate) trait Team<M> {
    /// The worker can begin.
    ghost ready: { Self → M → Type 0 };

    /// Lets a worker do as planned, and gives the calls that it made.
    fn work<R: Wait>(
        &self,
        rt: &R,
        alloc: Global,
        me: &mut M,
        plan: Plan,
    ) -> Result<Vec<Made>, Stop>
        requires ready { ready self.now me.old }
        ensures ready { IfOk result (λ _. ready self.now me.new) };
}

impl<'a, G: Pause> Team<Me> for Crew<'a, G, Spin, Spin> {
    ghost ready = { λ crew me. IsMeOf crew me × ((pass_view me.pass).hold ≡ None)
        × ((desk_view me.desk).posted ≡ []) };

    fn work<R: Wait>(
        &self,
        rt: &R,
        alloc: Global,
        me: &mut Me,
        plan: Plan,
    ) -> Result<Vec<Made>, Stop> {
        match plan {
            Plan::Call(calls) => work_to(rt, alloc, self, me, calls),
            Plan::LeaveAPiece if me.hand.worker() != 0 => Err(leave_a_piece(rt, self, me)),
            Plan::LeaveAPiece => work_to(rt, alloc, self, me, 1),
        }
    }
}
