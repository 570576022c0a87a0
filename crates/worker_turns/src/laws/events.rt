//! The core model's events that a turn makes.
ghost use Rattle.std.specs.Prelude.{ℕ};
ghost use Rattle.worker_turns.specs.declared.trapped.Trapped.{Trapped as TrappedAnswer};
ghost use Rattle.worker_turns.specs.declared.free.Did.{Did as FreeAnswer};
ghost use Rattle.worker_crew.specs.Workers.{WorkerView};
ghost use Rattle.worker_turns.specs.Trapped.{IsTrappedTurn};
ghost use Rattle.worker_turns.specs.Free.{IsFreeTurn};
ghost use Rattle.worker_turns.specs.Meanings.Events.{HasTrappedEvents, HasFreeEvents};

/// The answer of a turn determines the shape of the events that the pass made in it, in order. Running a piece makes no
/// event of the model, nor does a refused claim, leave or win.
#[tactic(auto, using(crate::proofs::MeaningLemmas::Events::trapped_events, crate::proofs::MeaningLemmas::Events::free_events))]
pub fn each_answer_tells_the_events_of_its_turn()
    ensures trapped { (workers : ℕ) (answer : TrappedAnswer) (old new : WorkerView)
        → IsTrappedTurn workers answer old new → HasTrappedEvents workers answer old.pass new.pass }
    ensures free { (answer : FreeAnswer) (old new : WorkerView)
        → IsFreeTurn answer old new → HasFreeEvents answer old.pass new.pass }
{}
