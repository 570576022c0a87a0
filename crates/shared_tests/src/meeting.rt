//! Two callers: one serves a batch of two pieces that meet, and the other runs one of them while it waits.
ghost use Rattle.std.specs.Prelude.{◌≡◌, ℕ, ◌≤◌, [], false, length, IfOk, OnErr, ⊤};
ghost use Rattle.std.specs.List.{AllByRecursion};
ghost use Rattle.shared_calls.specs.Serial.{IsServedInSomeOrder};
ghost use Rattle.shared_calls.specs.Views.{IsCallerOf, is_lost};
ghost use Rattle.piece_board.specs.Boards.{desk_view, IsDeskOf};
ghost use Rattle.shared_pieces.specs.Batches.{AllMeet, BatchContext};
ghost use Rattle.shared_tests.specs.Tallies.{echo};
ghost use Rattle.shared_tests.specs.declared.meeting.Echo.{Echo as EchoOf};
ghost use Rattle.shared_tests.specs.declared.meeting.Visit.{Visit as VisitOf};
ghost use Rattle.limits.specs.declared.TheConstants.{MOST_WORKERS, PLACES};

use piece_board::{Board, Desk};
use shared_calls::{Caller, Combined, Helper, Shared};
use shared_pieces::{InPieces, PieceHelper, Pieces, share_in_pieces};
use std::alloc::{AllocError, Global};
use std::sync::atomic::{AtomicU64, Ordering};
use std::sync::{Arc, Wait};
use std::test::*;
use std::thread;

/// How often a piece looks for the other one at most.
const LOOKS: u32 = 100_000_000;

/// Answers a number with itself. Each batch has two pieces, each of which waits for the other one of the first batch.
#[derive(Drop)]
struct Echo {
    /// Bit p is set once piece p has come, and bit 2 if one has waited in vain.
    came: Arc<AtomicU64>,
    /// The batch whose pieces run.
    batch: Vec<u32>,
}

/// A piece.
#[derive(Drop)]
struct Visit {
    came: Arc<AtomicU64>,
    piece: u64,
}

impl Combined for Echo {
    type Op = u32;

    type Reply = u32;

    ghost object = { echo };

    ghost content = { λ t. 0 };

    ghost fails = { λ t ops. ⊤ };

    fn serve(self, _alloc: Global, ops: Vec<u32>) -> Result<(Echo, Vec<u32>), AllocError>
        requires few { length ops.items ≤ MOST_WORKERS }
        ensures served { IfOk result (λ p. IsServedInSomeOrder echo 0 ops.items p.1.items 0) }
        ensures failed { OnErr result ⊤ }
    {
        Ok((self, ops))
    }
}

impl InPieces for Echo {
    type In = Visit;

    type Out = bool;

    type Rest = Echo;

    const MOST: u32 = 2;

    ghost MOST = { 2 };

    ghost meets = { λ visit kept. ⊤ };

    ghost starves = { λ visit. ⊤ };

    ghost is_context_of = { λ rest o. o.ops ≡ rest.batch.items };

    fn is_worth(&self, _ops: &[u32]) -> bool {
        true
    }

    fn begin(self, alloc: Global, ops: Vec<u32>) -> Result<(Echo, Vec<Visit>), AllocError>
        requires few { length ops.items ≤ MOST_WORKERS }
        ensures most { IfOk result (λ p. (length p.1.items ≤ 2) × (length p.1.items ≤ PLACES)) }
        ensures remembers { IfOk result (λ p. ops.items ≡ p.0.batch.items) }
        ensures starved { IfOk result (λ p. AllByRecursion (λ input. ⊤ → ⊤) p.1.items) }
        ensures failed { OnErr result ⊤ }
    {
        let first = Visit {
            came: self.came.clone()?,
            piece: 0,
        };
        let second = Visit {
            came: self.came.clone()?,
            piece: 1,
        };
        let visits = vec![in alloc; first, second]?;
        let Echo { came, batch: _ } = self;
        Ok((Echo { came, batch: ops }, visits))
    }

    fn piece(_alloc: Global, input: Visit) -> Result<bool, AllocError> {
        input
            .came
            .fetch_or(1 << (input.piece % 2), Ordering::SeqCst);
        for _ in 0..LOOKS {
            if input.came.load(Ordering::SeqCst) % 4 == 3 {
                return Ok(true);
            }
            thread::yield_now();
        }
        input.came.fetch_or(4, Ordering::SeqCst);
        Ok(false)
    }

    fn end(alloc: Global, rest: Echo, outs: Vec<bool>) -> Result<(Echo, Vec<u32>), AllocError>
        requires met { (o : BatchContext EchoOf ℕ VisitOf) × (o.ops ≡ rest.batch.items) × AllMeet (λ visit kept. ⊤) o.ins outs.items }
        ensures served { IfOk result (λ p. (o : BatchContext EchoOf ℕ VisitOf) → o.ops ≡ rest.batch.items → AllMeet (λ visit kept. ⊤) o.ins outs.items
            → IsServedInSomeOrder echo 0 o.ops p.1.items 0) }
        ensures failed { OnErr result ((o : BatchContext EchoOf ℕ VisitOf) → o.ops ≡ rest.batch.items → AllMeet (λ visit kept. ⊤) o.ins outs.items → ⊤) }
    {
        drop(outs);
        let Echo { came, batch } = rest;
        let none = Vec::new(alloc);
        Ok((Echo { came, batch: none }, batch))
    }
}

impl<'b> Helper<Echo> for PieceHelper<'b, Echo> {
    fn serve<R: Wait>(
        &mut self,
        rt: &R,
        alloc: Global,
        structure: Echo,
        ops: Vec<u32>,
    ) -> Result<(Echo, Vec<u32>), AllocError>
        requires few { length ops.items ≤ MOST_WORKERS }
        ensures served { IfOk result (λ p. IsServedInSomeOrder echo 0 ops.items p.1.items 0) }
        ensures failed { OnErr result ⊤ }
    {
        self.serve_batch(rt, alloc, structure, ops)
    }

    fn help(&mut self, holder: usize) -> bool {
        self.run_piece_of(holder)
    }
}

/// Calls once, and says whether the echo came.
fn call_once<R: Wait>(
    rt: &R,
    alloc: Global,
    shared: &Shared<Echo>,
    board: &Board<Pieces<Echo>>,
    place: (Caller<Echo>, Desk<Pieces<Echo>>),
) -> bool
    requires caller { IsCallerOf shared.now place.0 × (is_lost place.0 ≡ false) }
    requires desk { IsDeskOf board.now place.1 × ((desk_view place.1).posted ≡ []) }
{
    let (mut caller, desk) = place;
    let mut helper = PieceHelper::new(board, desk, alloc);
    match shared.call_with(rt, &mut helper, &mut caller, 7) {
        Ok(answer) => answer == 7,
        Err(_) => false,
    }
}

#[test]
fn a_caller_that_waits_runs_a_piece(rt: HostRuntime) -> Result<(), Fail> {
    let alloc = rt.alloc();
    let came = Arc::new(alloc, AtomicU64::new(0))?;
    let echo = Echo {
        came: came.clone()?,
        batch: Vec::new(alloc),
    };
    let (shared, board, places) = share_in_pieces(alloc, echo, 2)?;
    let answered = thread::map_vec(
        &rt,
        places,
        &|place: (Caller<Echo>, Desk<Pieces<Echo>>)| call_once(&rt, alloc, &shared, &board, place),
    )?;
    assert!(rt; answered.as_slice() == [true, true].as_slice());
    assert!(rt; came.load(Ordering::SeqCst) == 3);
    Ok(())
}
