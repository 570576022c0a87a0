//! A crew can be shared between threads (`Sync`), and its workers, and the deques it is made from, can be sent to them
//! (`Send`).
//!
//! The proof search on the whole crew at once exceeds its budget, so each part is shown first.
ghost use denote.Ref.{NamedLft};
ghost use denote.Param.Send.{IsSend, IsSync};
ghost use Rattle.launch_batch.specs.contracts.piece.PieceIn.{the_row as in_row};
ghost use Rattle.launch_batch.specs.contracts.piece.PieceOut.{the_row as out_row};
ghost use Rattle.piece_board.specs.contracts.board.Board.{the_row as board_row};
ghost use Rattle.piece_board.specs.contracts.board.Desk.{the_row as desk_row};
ghost use Rattle.two_deques.specs.contracts.decks.Decks.{the_row as decks_row};
ghost use Rattle.two_deques.specs.contracts.hand.Hand.{the_row as hand_row};
ghost use Rattle.two_deques.specs.contracts.pair.DeckPair.{the_row as pair_row};
ghost use Rattle.two_deques.specs.contracts.pair.Stealers.{the_row as stealers_row};
ghost use Rattle.core_table.specs.contracts.table.Pass.{the_row as pass_row};
ghost use Rattle.worker_crew.specs.contracts.batch_pieces.BatchPieces.{the_row as pieces_row};
ghost use Rattle.worker_crew.specs.contracts.batch_pieces.BatchPiecesWork.TheImpl.{ghosts};
ghost use Rattle.worker_crew.specs.contracts.crew.Crew.{the_row as crew_row};
ghost use Rattle.worker_crew.specs.contracts.crew.Me.{the_row as me_row};

use crate::batch_pieces::BatchPieces;
use core_table::laws::{is_sent, is_shared, tables_go_to_threads};
use launch_batch::{PieceIn, PieceOut};
use leaf_work::{LeafWork, Spin, WorkBrand};
use piece_board::{Board, Desk};
use two_deques::{DeckPair, Decks, Hand, Stealers};

/// Proof only: the board can be shared, and a desk can be sent.
fn boards_go_to_threads()
    ensures shared { IsSync (board_row pieces_row in_row out_row ghosts) }
    ensures sent { IsSend (desk_row pieces_row in_row out_row ghosts) }
{
    is_sent::<PieceIn>();
    is_sent::<PieceOut>();
    is_shared::<Board<BatchPieces>>();
    is_sent::<Desk<BatchPieces>>();
}

/// Proof only: the deques can be shared, and a hand can be sent.
fn decks_go_to_threads()
    ensures shared { IsSync decks_row }
    ensures sent { IsSend hand_row }
{
    is_shared::<Decks>();
    is_sent::<Hand>();
}

/// A worker's new deques can be sent back from the thread that made them, and what is left of them to one that drops
/// it.
pub fn pairs_go_to_threads()
    ensures pair { IsSend pair_row }
    ensures stealers { IsSend stealers_row }
{
    is_sent::<DeckPair>();
    is_sent::<Stealers>();
}

/// A worker can be sent to a thread, and its pass can be sent back.
pub fn workers_go_to_threads()
    ensures worker { IsSend me_row }
    ensures pass { IsSend pass_row }
{
    tables_go_to_threads::<Spin>();
    boards_go_to_threads();
    decks_go_to_threads();
}

/// A crew can be shared between threads if its `Pause` and the work of its leaves can.
pub fn crews_go_to_threads<G: Sync, B: WorkBrand + Send + Sync, W: LeafWork + Sync>()
    ensures { (l : NamedLft) → IsSync (crew_row l G.row B.row W.row B.WorkBrand W.LeafWork) }
{
    tables_go_to_threads::<B>();
    boards_go_to_threads();
    decks_go_to_threads();
}
