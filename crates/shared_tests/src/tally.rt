//! A tally that four threads share: each number is a piece.
ghost use Rattle.std.specs.Prelude.{◌≡◌, ℕ, ◌*◌, ◌≤◌, [], false, length, IfOk, OnErr, ⊤};
ghost use Rattle.std.specs.List.{AllByRecursion};
ghost use Rattle.shared_calls.specs.Serial.{IsServedInSomeOrder, after_all};
ghost use Rattle.shared_calls.specs.Views.{IsCallerOf, number_of, is_lost};
ghost use Rattle.piece_board.specs.Boards.{desk_view, IsDeskOf};
ghost use Rattle.shared_pieces.specs.Batches.{AllMeet, BatchContext};
ghost use Rattle.shared_tests.specs.Tallies.{tally};
ghost use Rattle.shared_tests.specs.declared.tally.Tally.{Tally as TallyOf};
ghost use Rattle.limits.specs.declared.TheConstants.{MOST_WORKERS, PLACES};

use limits::MOST_WORKERS;
use piece_board::{Board, Desk};
use shared_calls::{Caller, Combined, Helper, Shared};
use shared_pieces::{InPieces, PieceHelper, Pieces, share_in_pieces};
use std::alloc::{AllocError, Global};
use std::sync::Wait;
use std::sync::atomic::{AtomicU64, Ordering};
use std::test::*;
use std::thread;

/// Adds up numbers, and answers each with its square. It never fails.
#[derive(Drop)]
struct Tally {
    sum: u64,
}

/// The sum of numbers, modulo 2^64, from a first sum on.
fn add_all(first: u64, numbers: &[u32]) -> u64
    ensures { result ≡ after_all tally first numbers.now }
{
    let mut sum = first;
    for i in 0..numbers.len() {
        sum = sum.wrapping_add(u64::from(numbers[i]));
    }
    sum
}

impl Combined for Tally {
    type Op = u32;

    type Reply = u64;

    ghost object = { tally };

    ghost content = { λ t. t.sum };

    ghost fails = { λ t ops. ⊤ };

    fn serve(self, alloc: Global, ops: Vec<u32>) -> Result<(Tally, Vec<u64>), AllocError>
        requires few { length ops.items ≤ MOST_WORKERS }
        ensures served { IfOk result (λ p. IsServedInSomeOrder tally self.sum ops.items p.1.items p.0.sum) }
        ensures failed { OnErr result ⊤ }
    {
        let sum = add_all(self.sum, ops.as_slice());
        let mut squares = Vec::with_capacity(alloc, ops.len())?;
        for op in ops {
            squares.push(u64::from(op) * u64::from(op))?;
        }
        Ok((Tally { sum }, squares))
    }
}

impl InPieces for Tally {
    type In = u32;

    type Out = u64;

    type Rest = Tally;

    const MOST: u32 = MOST_WORKERS;

    ghost MOST = { MOST_WORKERS };

    ghost meets = { λ number square. square ≡ number * number };

    ghost starves = { λ number. ⊥ };

    ghost is_context_of = { λ rest o. (rest.sum ≡ after_all tally o.before.sum o.ops) × (o.ins ≡ o.ops) };

    fn is_worth(&self, _ops: &[u32]) -> bool {
        true
    }

    fn begin(self, _alloc: Global, ops: Vec<u32>) -> Result<(Tally, Vec<u32>), AllocError>
        requires few { length ops.items ≤ MOST_WORKERS }
        ensures most { IfOk result (λ p. (length p.1.items ≤ MOST_WORKERS) × (length p.1.items ≤ PLACES)) }
        ensures remembers { IfOk result (λ p. (p.0.sum ≡ after_all tally self.sum ops.items) × (p.1.items ≡ ops.items)) }
        ensures starved { IfOk result (λ p. AllByRecursion (λ input. ⊥ → ⊤) p.1.items) }
        ensures failed { OnErr result ⊤ }
    {
        let sum = add_all(self.sum, ops.as_slice());
        Ok((Tally { sum }, ops))
    }

    fn piece(_alloc: Global, input: u32) -> Result<u64, AllocError> {
        Ok(u64::from(input) * u64::from(input))
    }

    fn end(_alloc: Global, rest: Tally, outs: Vec<u64>) -> Result<(Tally, Vec<u64>), AllocError>
        requires met { (o : BatchContext TallyOf ℕ ℕ) × ((rest.sum ≡ after_all tally o.before.sum o.ops) × (o.ins ≡ o.ops)) × AllMeet (λ number square. square ≡ number * number) o.ins outs.items }
        ensures served { IfOk result (λ p. (o : BatchContext TallyOf ℕ ℕ) → (rest.sum ≡ after_all tally o.before.sum o.ops) × (o.ins ≡ o.ops) → AllMeet (λ number square. square ≡ number * number) o.ins outs.items
            → IsServedInSomeOrder tally o.before.sum o.ops p.1.items p.0.sum) }
        ensures failed { OnErr result ((o : BatchContext TallyOf ℕ ℕ) → (rest.sum ≡ after_all tally o.before.sum o.ops) × (o.ins ≡ o.ops) → AllMeet (λ number square. square ≡ number * number) o.ins outs.items → ⊤) }
    {
        Ok((rest, outs))
    }
}

impl<'a> Helper<Tally> for PieceHelper<'a, Tally> {
    fn serve<R: Wait>(
        &mut self,
        rt: &R,
        alloc: Global,
        structure: Tally,
        ops: Vec<u32>,
    ) -> Result<(Tally, Vec<u64>), AllocError>
        requires few { length ops.items ≤ MOST_WORKERS }
        ensures served { IfOk result (λ p. IsServedInSomeOrder tally structure.sum ops.items p.1.items p.0.sum) }
        ensures failed { OnErr result ⊤ }
    {
        self.serve_batch(rt, alloc, structure, ops)
    }

    fn help(&mut self, holder: usize) -> bool {
        self.run_piece_of(holder)
    }
}

/// The calls of each thread.
const CALLS: u32 = 200;

/// Adds the numbers below `CALLS` one after another, and counts the right answers.
fn add_numbers<R: Wait>(
    rt: &R,
    alloc: Global,
    tally: &Shared<Tally>,
    board: &Board<Pieces<Tally>>,
    place: (Caller<Tally>, Desk<Pieces<Tally>>),
    right: &AtomicU64,
) -> Caller<Tally>
    requires caller { IsCallerOf tally.now place.0 × (is_lost place.0 ≡ false) }
    requires desk { IsDeskOf board.now place.1 × ((desk_view place.1).posted ≡ []) }
    ensures { IsCallerOf tally.now result × (number_of result ≡ number_of place.0) }
{
    let (mut caller, desk) = place;
    let mut helper = PieceHelper::new(board, desk, alloc);
    for number in 0..CALLS {
        match tally.call_with(rt, &mut helper, &mut caller, number) {
            Ok(square) => {
                if square == u64::from(number) * u64::from(number) {
                    right.fetch_add(1, Ordering::SeqCst);
                }
            }
            Err(_) => return caller,
        }
    }
    caller
}

#[test]
fn four_threads_share_a_tally(rt: HostRuntime) -> Result<(), Fail> {
    let alloc = rt.alloc();
    let (shared, board, places) = share_in_pieces(alloc, Tally { sum: 0 }, 4)?;
    let right = AtomicU64::new(0);
    let callers = thread::map_vec(
        &rt,
        places,
        &|place: (Caller<Tally>, Desk<Pieces<Tally>>)| {
            add_numbers(&rt, alloc, &shared, &board, place, &right)
        },
    )?;
    assert!(rt; right.load(Ordering::SeqCst) == 800);
    match shared.close(callers) {
        Some(tally) => assert!(rt; tally.sum == 4 * 19_900),
        None => assert!(rt; false),
    }
    Ok(())
}
