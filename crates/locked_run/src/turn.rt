//! What a worker sees of the core while it holds the lock, and its turn there.
ghost use Rattle.std.specs.Prelude.{◌≡◌, ◌<◌, IfOk, IfSome, Some, false, ℕ};
ghost use Rattle.batcher_core.specs.Cores.{job_in, state_in, due_in, IsTurnResult};
ghost use Rattle.batcher_core.specs.declared.turn.Turn.TheVariants.{Spin};
ghost use Rattle.locked_run.specs.Looks.{IsMade};

use batcher_core::{Core, Doing, Spun, Turn};
use std::alloc::AllocError;

/// The result of a worker's look at the core.
#[derive(Clone, Copy)]
pub enum Look {
    /// An event of the worker happened. It left the worker `doing` this; `made` is the newest node of the worker's
    /// list, if the list grew.
    Moved { doing: Doing, made: Option<u32> },
    /// The worker is to do this many steps of work outside the lock, and to hand them in at its next look.
    Due(u32),
    /// The worker has no event in this state.
    Idle,
    /// The run is over, or memory ran out.
    Ended,
}

/// The newest node of a list, if the list is longer than `before`.
pub(crate) fn newest_if_longer(list: &[u32], before: usize) -> Option<u32>
    ensures { IsMade before list.now result }
{
    if before < list.len() {
        Some(list[list.len() - 1])
    } else {
        None
    }
}

/// The work that was done, if it has exactly this many steps.
fn work_of(spun: Option<Spun>, steps: u32) -> Option<Spun>
    ensures { IfSome result (λ s. s ≡ steps) }
{
    match spun {
        Some(spun) if spun.number() == steps => Some(spun),
        _ => None,
    }
}

/// A turn of the worker. If the turn asks for work and the work done matches, a second turn is given the work at once.
#[tactic(auto, using(crate::proofs::TurnLemmas::given_turn))]
pub(crate) fn turn_with(
    core: &mut Core,
    worker: u32,
    spun: Option<Spun>,
) -> Result<Turn, AllocError>
    requires { worker < core.old.workers }
    ensures job { (core.new.job ≡ core.old.job)
        × (core.new.workers ≡ core.old.workers) }
    ensures event { IfOk result (λ t. IsTurnResult t (job_in core.old) (state_in core.old)
        worker (state_in core.new)) }
    ensures due { IfOk result (λ t. (steps : ℕ) → t ≡ Spin steps
        → due_in core.old worker ≡ Some steps) }
    ensures spent { IfOk result (λ _. core.new.spent ≡ false) }
{
    match core.turn(worker, None)? {
        Turn::Spin(steps) => match work_of(spun, steps) {
            Some(spun) => core.turn(worker, Some(spun)),
            None => Ok(Turn::Spin(steps)),
        },
        other => Ok(other),
    }
}
