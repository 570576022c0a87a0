//! The meaning of a launch.
ghost use Rattle.std.specs.Prelude.{ℕ, List};
ghost use Rattle.batch_history.specs.declared.batch.Entry.{Entry};
ghost use Rattle.worker_crew.specs.Workers.{WorkerView};
ghost use Rattle.worker_turns.specs.Launches.{Launches};
ghost use Rattle.worker_turns.specs.Meanings.Launches.{HasLaunched};

/// A launch looks at each worker once. If it finds no call, it publishes nothing. Otherwise the calls that it finds,
/// and no others, form one batch, which it publishes and answers; it posts each piece of the batch once and collects
/// each result once. Afterwards the flag is released.
#[tactic(auto, using(crate::proofs::MeaningLemmas::Launches::launch_means))]
pub fn a_launch_serves_exactly_the_calls_that_it_found()
    ensures { (workers : ℕ) (book : List (List Entry)) (old new : WorkerView) → Launches workers book old new
        → HasLaunched workers book old new }
{}
