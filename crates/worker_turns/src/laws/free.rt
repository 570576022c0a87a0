//! The meaning of each answer of a free worker's turn.
ghost use Rattle.worker_turns.specs.declared.free.Did.TheVariants as Answers;
ghost use Rattle.worker_crew.specs.Workers.{WorkerView};
ghost use Rattle.worker_turns.specs.Free.{IsFreeTurn};
ghost use Rattle.worker_turns.specs.Meanings.Gains.{HasAllEnds};
ghost use Rattle.worker_turns.specs.Meanings.Free.{DidRun, DidRunPiece, DidFindNothing};

/// `Ran` implies that the worker claimed one node. Its own list of nodes is the old one, without the node if that was
/// popped, with the nodes opened in the turn behind it, in order. If the node was stolen, it is all that the hand took;
/// if it was popped, the hand took nothing.
#[tactic(auto, using(crate::proofs::MeaningLemmas::Free::ran_means))]
pub fn ran_comes_where_one_node_was_claimed()
    ensures { (old new : WorkerView) → HasAllEnds old → IsFreeTurn Answers.Ran old new → DidRun old new }
{}

/// `Piece` implies that the worker finished one piece more, and posted none. It claimed no node, and the spot of that
/// piece is all that it got from the deques.
#[tactic(auto, using(crate::proofs::MeaningLemmas::Free::piece_means))]
pub fn piece_comes_where_one_was_finished_and_none_posted()
    ensures { (old new : WorkerView) → HasAllEnds old → IsFreeTurn Answers.Piece old new → DidRunPiece old new }
{}

/// `Nothing` implies that no node was claimed, and that either both own pops and the steal found nothing, or exactly
/// one node or spot was found, and its claim was refused.
#[tactic(auto, using(crate::proofs::MeaningLemmas::Free::nothing_means))]
pub fn nothing_comes_where_nothing_was_found_or_one_was_refused()
    ensures { (old new : WorkerView) → HasAllEnds old → IsFreeTurn Answers.Nothing old new → DidFindNothing old new }
{}
