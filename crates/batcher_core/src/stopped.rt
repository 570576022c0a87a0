//! A run by turns in which some workers have stopped for good.
ghost use Rattle.std.specs.Prelude.{◌≡◌, ◌<◌, ℕ, true, false, IfOk, Contains, length};
ghost use Rattle.std.specs.Option.{is_some};
ghost use Rattle.core_model.specs.declared.task.Task.TheVariants.{Idle};
ghost use Rattle.core_model.specs.State.{CoreState};
ghost use Rattle.core_model.specs.Runs.{IsTurn};
ghost use Rattle.core_model.specs.Choice.{choice};
ghost use Rattle.batcher_core.specs.Cores.{job_in, state_in, is_over_in};
ghost use Rattle.core_model.specs.Measure.{measure};
ghost use Rattle.core_state.specs.Places.{at};
ghost use Rattle.core_model.specs.Stopped.{NoLiveEvent, LiveDrive};
ghost use Rattle.batcher_core.specs.LiveEnds.{IsEndOf, IsOver};

use crate::scheduler::Core;
use crate::turn::Turn;
use batch_history::Report;
use core_model::laws::stopped::idle_stopped_workers_cost_nothing;
use leaf_work::{BrandedWork, Spin};
use sp_order::laws::plan_stands_for_tree;
use std::alloc::{AllocError, Global};

/// The outcome of a run by the live workers.
#[derive(Drop)]
pub enum Ended {
    /// The root is done, and this is the report.
    Over(Report),
    /// The root is not done, and no live worker has an event. This is the core as the turns left it.
    Stuck(Core),
}

/// One turn of a worker. Work that is due is done within the turn. Returns whether an event happened.
fn try_turn(core: &mut Core, worker: u32) -> Result<bool, AllocError>
    requires worker_in { worker < core.old.workers }
    ensures job { (core.new.job ≡ core.old.job)
        × (core.new.workers ≡ core.old.workers) }
    ensures turn { IfOk result
        (λ _. IsTurn (job_in core.old) (state_in core.old) worker (state_in core.new)) }
    ensures moved { IfOk result
        (λ moved. moved ≡ is_some (choice (job_in core.old) (state_in core.old) worker)) }
    ensures spent { IfOk result (λ _. core.new.spent ≡ false) }
{
    match core.advance(worker, &BrandedWork::<Spin, Spin>::of(&Spin))? {
        Turn::Moved => Ok(true),
        _ => Ok(false),
    }
}

/// One turn of each live worker in ascending order, until the core is over. Returns whether some event happened.
fn take_round(core: &mut Core, live: &[bool]) -> Result<bool, AllocError>
    requires all { length live.now ≡ core.old.workers }
    requires unspent { core.old.spent ≡ false }
    ensures job { IfOk result (λ _. (core.new.job ≡ core.old.job)
        × (core.new.workers ≡ core.old.workers)) }
    ensures unspent { IfOk result (λ _. core.new.spent ≡ false) }
    ensures drives { IfOk result (λ _. (last : CoreState)
        → LiveDrive (job_in core.old) (at live.now false) (state_in core.new) 0 last
        → LiveDrive (job_in core.old) (at live.now false) (state_in core.old) 0 last) }
    ensures fewer { IfOk result (λ moved. moved ≡ true
        → measure (job_in core.old) (state_in core.new).state
        < measure (job_in core.old) (state_in core.old).state) }
    ensures rests { IfOk result (λ moved. moved ≡ false → is_over_in core.new ≡ false
        → NoLiveEvent (job_in core.old) (at live.now false) (state_in core.new)) }
{
    let mut moved = false;
    for worker in 0..core.workers() {
        if core.is_over() {
            return Ok(moved);
        }
        if !live[worker as usize] {
            continue;
        }
        core.invariant_holds();
        moved |= try_turn(core, worker)?;
    }
    core.invariant_holds();
    Ok(moved)
}

/// Takes rounds until one makes no event.
fn run_live(core: &mut Core, live: &[bool]) -> Result<(), AllocError>
    requires all { length live.now ≡ core.old.workers }
    requires unspent { core.old.spent ≡ false }
    ensures job { IfOk result (λ _. (core.new.job ≡ core.old.job)
        × (core.new.workers ≡ core.old.workers)) }
    ensures unspent { IfOk result (λ _. core.new.spent ≡ false) }
    ensures drives { IfOk result
        (λ _. LiveDrive (job_in core.old) (at live.now false) (state_in core.old) 0
        (state_in core.new)) }
    ensures rests { IfOk result (λ _. is_over_in core.new ≡ false
        → NoLiveEvent (job_in core.old) (at live.now false) (state_in core.new)) }
{
    let mut moved = true;
    while moved {
        moved = take_round(core, live)?;
    }
    Ok(())
}

/// Takes turns round robin among the live workers, from worker 0 on, until the core is over or no live worker has an
/// event. Stopped workers take no turn, whatever their state. It always returns. If no stopped worker has a task, the
/// core is over at the end. A spent core gives an `Err`.
pub fn drive_some(alloc: Global, core: Core, live: &[bool]) -> Result<Ended, AllocError>
    requires all { length live.now ≡ core.workers }
    requires some { Contains live.now true }
    ensures ended { IfOk result (λ ended. IsEndOf core (at live.now false) ended) }
    ensures idle { ((w : ℕ) → w < core.workers → at live.now false w ≡ false
        → (state_in core).state.task w ≡ Idle)
        → IfOk result (λ ended. IsOver ended) }
    ensures spent { IfOk result (λ _. core.spent ≡ false) }
{
    plan_stands_for_tree();
    idle_stopped_workers_cost_nothing();
    if core.history().is_none() {
        return Err(AllocError);
    }
    core.stands();
    let mut core = core;
    run_live(&mut core, live)?;
    core.stands();
    if core.is_over() {
        return Ok(Ended::Over(core.report(alloc)?));
    }
    Ok(Ended::Stuck(core))
}
