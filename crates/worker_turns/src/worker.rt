//! The loop of one worker.
ghost use Rattle.std.specs.Prelude.{◌≡◌, ◌⊎◌, true, false};
ghost use Rattle.core_table.specs.Passes.{IsPassOf, job_in, pass_view, view};
ghost use Rattle.worker_crew.specs.Workers.{IsReady};
ghost use Rattle.worker_turns.specs.Stops.{KnowsStop};

use crate::back_off::back_off;
use crate::free::{Did, free_turn};
use core_table::Pass;
use crossbeam_utils::Backoff;
use leaf_work::{LeafWork, WorkBrand};
use run_points::Pause;
use std::alloc::Global;
use std::sync::Wait;
use worker_crew::{Crew, Me, Stop};

/// One free turn of a worker. After a turn that did nothing the worker looks once at the root, and backs off unless that
/// is done. Returns whether the worker goes on. If memory runs out in the turn, the worker sets the stop word to stop
/// the others.
fn turn<G: Pause, B: WorkBrand, W: LeafWork, R: Wait>(
    rt: &R,
    alloc: Global,
    crew: &Crew<G, B, W>,
    me: &mut Me,
    backoff: &Backoff,
) -> bool
    requires ready { IsReady crew.now me.old }
    ensures pass { IsPassOf crew.now.table me.new.pass }
    ensures ready { result ≡ true → IsReady crew.now me.new }
    ensures ended { result ≡ false → ((view me.new.pass).saw_done ≡ true) ⊎ KnowsStop (pass_view me.new.pass) }
{
    match free_turn(rt, alloc, crew, me) {
        Ok(did) => {
            let nothing = matches!(did, Did::Nothing);
            if nothing && crew.table.root_done(&mut me.pass) {
                return false;
            }
            back_off(backoff, nothing);
            true
        }
        Err(Stop::Memory) => {
            crew.table.stop(&mut me.pass);
            false
        }
        Err(Stop::Stopped) => false,
    }
}

/// A worker's main loop: takes turns until the worker sees the root done, sets the stop word or finds it set. Returns
/// its pass.
pub fn work<G: Pause, B: WorkBrand, W: LeafWork, R: Wait>(
    rt: &R,
    alloc: Global,
    crew: &Crew<G, B, W>,
    me: Me,
) -> Pass
    requires ready { IsReady crew.now me }
    ensures pass { IsPassOf crew.now.table result }
    ensures ended { ((view result).saw_done ≡ true) ⊎ KnowsStop (pass_view result) }
{
    let mut me = me;
    let backoff = Backoff::new();
    for _ in rt.forever() {
        if !turn(rt, alloc, crew, &mut me, &backoff) {
            let Me {
                pass,
                hand: _,
                desk: _,
                tries: _,
            } = me;
            return pass;
        }
    }
    unreachable!()
}
