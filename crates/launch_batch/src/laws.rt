//! The laws of a batch. Each is the contract of a function that does nothing.
ghost use Rattle.std.specs.Prelude.{◌≡◌, List, map};
ghost use Rattle.std.specs.List.{AllByRecursion};
ghost use Rattle.seq_objects.specs.declared.call.Call.{Call};
ghost use Rattle.seq_objects.specs.Orders.{StrictlyAscends};
ghost use Rattle.seq_objects.specs.Pieces.{AllMeet};
ghost use Rattle.batch_history.specs.declared.batch.Entry.{Entry};
ghost use Rattle.launch_batch.specs.declared.piece.PieceIn.{PieceIn as Input};
ghost use Rattle.launch_batch.specs.declared.piece.PieceOut.{PieceOut as Output};
ghost use Rattle.launch_batch.specs.Calls.{ArePermutations, IsServiceOf};
ghost use Rattle.launch_batch.specs.Pieces.{Run, Meets, place_of, ArePutBack};

use crate::piece::{PieceIn, PieceOut};
pub use crate::sending::shops_go_to_threads;

fn can_be_sent<T: Send>() {}

/// Pieces and outs are `Send`.
pub fn pieces_can_be_sent() {
    can_be_sent::<PieceIn>();
    can_be_sent::<PieceOut>();
}

/// A list of calls has at most one service after a book: the entries, with their order and replies, are determined.
pub fn a_service_is_one()
    ensures { (book : List (List Entry)) (calls : List Call) (batch other : List Entry) → IsServiceOf book calls batch
        → IsServiceOf book calls other → batch ≡ other }
{}

/// The pieces of a batch may run in any order, each once, on any thread. `some`: there are outs that stand in the order
/// of the pieces' places. `meet`: if the places strictly ascend and each run's out meets its piece, all such outs meet
/// the pieces in order, as the end of the batch requires.
pub fn pieces_run_in_any_order()
    ensures some { (ins : List Input) (runs : List Run) → ArePermutations ins (map (λ run. run.input) runs)
        → (outs : List Output) × ArePutBack runs (map place_of ins) outs }
    ensures meet { (ins : List Input) (runs : List Run) (outs : List Output) → StrictlyAscends (map place_of ins)
        → ArePermutations ins (map (λ run. run.input) runs) → AllByRecursion (λ run. Meets run.input run.out) runs
        → ArePutBack runs (map place_of ins) outs → AllMeet Meets ins outs }
{}
