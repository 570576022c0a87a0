//! The board of pieces, with work that doubles a number.
ghost use Rattle.std.specs.Prelude.{◌≡◌, ◌*◌, None, IfSome};
ghost use Rattle.piece_board.specs.Desks.{posted_at};
ghost use Rattle.piece_board.specs.Boards.{desk_view, IsDeskOf};

use piece_board::{Board, Desk, Work};
use std::test::*;
use std::thread;

/// A piece is a number, and its result twice the number.
struct Doubling;

impl Work for Doubling {
    type In = u32;

    type Out = u64;

    ghost meets = { λ x y. y ≡ 2 * x };
}

/// How many pieces two threads hand over.
const PIECES: u32 = 1000;

/// How often a thread looks for the other one at most.
const LOOKS: u32 = 100_000_000;

/// Whether a piece of the first desk is claimed once, and only where it was posted, and its result is collected once.
fn is_doubled_once(
    board: &Board<Doubling>,
    poster: &mut Desk<Doubling>,
    helper: &mut Desk<Doubling>,
) -> bool
    requires poster { IsDeskOf board.now poster.old }
    requires helper { IsDeskOf board.now helper.old }
    requires free { posted_at 3 (desk_view poster.old) ≡ None }
{
    board.post(poster, 3, 21);
    if board.collect(poster, 3).is_some() {
        return false;
    }
    let Some((claim, input)) = board.claim(helper, 0, 3) else {
        return false;
    };
    if board.claim(helper, 0, 3).is_some()
        || board.claim(helper, 2, 3).is_some()
        || board.claim(helper, 0, 59).is_some()
    {
        return false;
    }
    board.finish(helper, claim, u64::from(input) * 2);
    board.collect(poster, 3) == Some(42) && board.collect(poster, 3).is_none()
}

#[test]
fn a_piece_goes_out_and_its_result_comes_back(rt: HostRuntime) -> Result<(), Fail> {
    let (board, mut desks) = Board::<Doubling>::make(rt.alloc(), 2)?;
    let mut helper = desks.remove(1);
    let mut poster = desks.remove(0);
    assert!(rt;
        poster.row() == 0 && helper.row() == 1 && is_doubled_once(&board, &mut poster, &mut helper)
    );
    Ok(())
}

/// Posts a piece, and looks for its result.
fn ask(board: &Board<Doubling>, desk: &mut Desk<Doubling>, input: u32) -> Option<u64>
    requires desk { IsDeskOf board.now desk.old }
    requires free { posted_at 3 (desk_view desk.old) ≡ None }
    ensures desk { IsDeskOf board.now desk.new }
    ensures free { IfSome result (λ _. posted_at 3 (desk_view desk.new) ≡ None) }
    ensures doubled { IfSome result (λ out. out ≡ 2 * input) }
{
    board.post(desk, 3, input);
    for _ in 0..LOOKS {
        if let Some(out) = board.collect(desk, 3) {
            return Some(out);
        }
        thread::yield_now();
    }
    None
}

/// How many results the poster gets, of the pieces that it posts one after another.
fn ask_all(board: &Board<Doubling>, desk: Desk<Doubling>) -> u32
    requires desk { IsDeskOf board.now desk }
    requires free { posted_at 3 (desk_view desk) ≡ None }
{
    let mut desk = desk;
    for input in 0..PIECES {
        let Some(_) = ask(board, &mut desk, input) else {
            return input;
        };
    }
    PIECES
}

/// How many pieces the helper finishes.
fn help(board: &Board<Doubling>, desk: Desk<Doubling>) -> u32
    requires desk { IsDeskOf board.now desk }
{
    let mut desk = desk;
    let mut finished = 0;
    for _ in 0..LOOKS {
        if finished == PIECES {
            return finished;
        }
        match board.claim(&mut desk, 0, 3) {
            Some((claim, input)) => {
                board.finish(&mut desk, claim, u64::from(input) * 2);
                finished += 1;
            }
            None => thread::yield_now(),
        }
    }
    finished
}

/// What the worker of this desk does: the first one posts, and the other helps.
fn work(board: &Board<Doubling>, desk: Desk<Doubling>) -> u32
    requires desk { IsDeskOf board.now desk }
    requires free { posted_at 3 (desk_view desk) ≡ None }
{
    if desk.row() == 0 {
        ask_all(board, desk)
    } else {
        help(board, desk)
    }
}

#[test]
fn a_thousand_pieces_go_to_another_thread(rt: HostRuntime) -> Result<(), Fail> {
    let (board, desks) = Board::<Doubling>::make(rt.alloc(), 2)?;
    let shared = &board;
    let counts = thread::map_vec(&rt, desks, &|desk: Desk<Doubling>| work(shared, desk))?;
    assert!(rt; counts.as_slice() == [PIECES, PIECES].as_slice());
    Ok(())
}
