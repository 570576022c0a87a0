//! What turns and launches leave unchanged.
ghost use Rattle.std.specs.Prelude.{◌≡◌, ℕ, List, true};
ghost use Rattle.batch_history.specs.declared.batch.Entry.{Entry};
ghost use Rattle.core_model.specs.declared.status.Receipt.{Receipt};
ghost use Rattle.worker_turns.specs.declared.trapped.Trapped.{Trapped as TrappedAnswer};
ghost use Rattle.worker_turns.specs.declared.trapped.Trapped.TheVariants as TrappedAnswers;
ghost use Rattle.worker_turns.specs.declared.free.Did.{Did as FreeAnswer};
ghost use Rattle.worker_turns.specs.declared.free.Did.TheVariants as FreeAnswers;
ghost use Rattle.table_rule.specs.Shows.{IsPrefix};
ghost use Rattle.worker_crew.specs.Passes.{is_trapped, IsTrapped};
ghost use Rattle.worker_crew.specs.Workers.{WorkerView};
ghost use Rattle.worker_turns.specs.Trapped.{IsTrappedTurn};
ghost use Rattle.worker_turns.specs.Free.{IsFreeTurn, Helps};
ghost use Rattle.worker_turns.specs.Launches.{Launches};
ghost use Rattle.worker_turns.specs.Meanings.Stays.{CallAfter, IsStillTrapped, KeepsNodes, HelpsNone};

/// After a launch, and after each answer of a trapped turn but `Left`, the worker is still trapped, and its task, its
/// call, the receipts that it left with and its record of what `since` answered are unchanged. After `Left` it is free,
/// its call has the receipt, and its task and that record are unchanged.
#[tactic(auto, using(crate::proofs::MeaningLemmas::Stays::call_after, crate::proofs::MeaningLemmas::Stays::launched_call))]
pub fn a_trapped_worker_waits_for_the_same_call()
    ensures turn { (workers : ℕ) (answer : TrappedAnswer) (old new : WorkerView) → IsTrapped old.pass
        → IsTrappedTurn workers answer old new → CallAfter answer old.pass new.pass }
    ensures launch { (workers : ℕ) (book : List (List Entry)) (old new : WorkerView) → is_trapped old.pass.call ≡ true
        → IsPrefix old.pass.book_seen book → Launches workers book old new → IsStillTrapped old.pass new.pass }
{}

/// A trapped turn or a launch changes neither the worker's ends of the deques of nodes nor the record of the nodes that
/// it claimed, was refused and opened.
#[tactic(auto, using(crate::proofs::MeaningLemmas::Stays::turn_keeps, crate::proofs::MeaningLemmas::Stays::launch_keeps))]
pub fn a_trapped_worker_keeps_its_nodes()
    ensures turn { (workers : ℕ) (answer : TrappedAnswer) (old new : WorkerView)
        → IsTrappedTurn workers answer old new → KeepsNodes old new }
    ensures launch { (workers : ℕ) (book : List (List Entry)) (old new : WorkerView)
        → Launches workers book old new → KeepsNodes old new }
{}

/// In each turn, and in a launch, the worker finishes as many pieces as it claims.
#[tactic(auto, using(crate::proofs::MeaningLemmas::Stays::trapped_helps, crate::proofs::MeaningLemmas::Stays::free_helps, crate::proofs::MeaningLemmas::Stays::launch_helps))]
pub fn each_piece_that_is_given_is_finished()
    ensures trapped { (workers : ℕ) (answer : TrappedAnswer) (old new : WorkerView)
        → IsTrappedTurn workers answer old new → Helps old.desk new.desk }
    ensures free { (answer : FreeAnswer) (old new : WorkerView) → IsFreeTurn answer old new → Helps old.desk new.desk }
    ensures launch { (workers : ℕ) (book : List (List Entry)) (old new : WorkerView)
        → Launches workers book old new → Helps old.desk new.desk }
{}

/// With the answer `Left`, or `Nothing` of either kind of turn, the worker claimed and finished no piece.
#[tactic(auto, using(crate::proofs::MeaningLemmas::Stays::left_helps_none, crate::proofs::MeaningLemmas::Stays::nothing_helps_none, crate::proofs::MeaningLemmas::Stays::found_helps_none))]
pub fn no_piece_is_run_at_left_and_nothing()
    ensures left { (workers : ℕ) (receipt : Receipt) (old new : WorkerView)
        → IsTrappedTurn workers (TrappedAnswers.Left receipt) old new → HelpsNone old.desk new.desk }
    ensures trapped { (workers : ℕ) (old new : WorkerView)
        → IsTrappedTurn workers TrappedAnswers.Nothing old new → HelpsNone old.desk new.desk }
    ensures free { (old new : WorkerView) → IsFreeTurn FreeAnswers.Nothing old new → HelpsNone old.desk new.desk }
{}
