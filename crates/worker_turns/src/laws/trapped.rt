//! The meaning of each answer of a trapped worker's turn.
ghost use Rattle.std.specs.Prelude.{ℕ};
ghost use Rattle.core_model.specs.declared.status.Receipt.{Receipt};
ghost use Rattle.worker_turns.specs.declared.trapped.Trapped.TheVariants as Answers;
ghost use Rattle.worker_crew.specs.Workers.{WorkerView};
ghost use Rattle.worker_turns.specs.Trapped.{IsTrappedTurn};
ghost use Rattle.worker_turns.specs.Meanings.Gains.{HasAllEnds};
ghost use Rattle.worker_turns.specs.Meanings.Trapped.{DidNothing, DidLeave, DidPiece};
ghost use Rattle.worker_turns.specs.Meanings.Launches.{DidLaunch};

/// `Nothing` implies that all four tries failed: the own deque of pieces gave no spot, or its newest, which was
/// refused; the leave and the win were refused; and there was no other worker, or the steal gave no spot, or one that
/// was refused.
pub fn nothing_comes_where_all_four_gave_nothing()
    ensures { (workers : ℕ) (old new : WorkerView) → HasAllEnds old
        → IsTrappedTurn workers Answers.Nothing old new → DidNothing old new }
{}

/// `Left` carries the receipt of the turn's leave. It implies that the own deque of pieces gave no spot, or its newest,
/// which was refused. The turn tried neither to win nor to steal.
pub fn left_comes_with_the_receipt_of_the_leave()
    ensures { (workers : ℕ) (receipt : Receipt) (old new : WorkerView) → HasAllEnds old
        → IsTrappedTurn workers (Answers.Left receipt) old new → DidLeave receipt old new }
{}

/// `Piece` implies that the worker finished one piece more, and posted none. The claim of the last spot that the turn
/// got succeeded; an earlier one was refused. The last spot was popped, the newest of the own list; or it was stolen,
/// after the own deque gave nothing to run and the leave and the win were refused.
pub fn piece_comes_where_one_was_finished_and_none_posted()
    ensures { (workers : ℕ) (old new : WorkerView) → HasAllEnds old
        → IsTrappedTurn workers Answers.Piece old new → DidPiece old new }
{}

/// `Launched` implies that the leave was refused, that the worker won the flag, and that the turn launched.
#[tactic(auto, using(crate::proofs::MeaningLemmas::Launches::launched_means))]
pub fn launched_comes_where_the_flag_was_won()
    ensures { (workers : ℕ) (old new : WorkerView) → IsTrappedTurn workers Answers.Launched old new
        → DidLaunch workers old new }
{}
