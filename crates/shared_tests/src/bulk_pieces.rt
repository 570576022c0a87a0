//! Threads that share a set whose batches are served in pieces.
ghost use Rattle.std.specs.Prelude.{◌≡◌, ◌≤◌, [], false, length, IfOk, OnOk, OnErr, ⊤};
ghost use Rattle.shared_calls.specs.Serial.{IsServedInSomeOrder};
ghost use Rattle.shared_calls.specs.Views.{IsCallerOf, number_of, is_lost};
ghost use Rattle.piece_board.specs.Boards.{desk_view, IsDeskOf};
ghost use Rattle.shared_collections.specs.Bulks.{bulk_set};
ghost use Rattle.limits.specs.declared.TheConstants.{MOST_WORKERS};

use bulk_calls::{BulkKind, BulkOp, BulkSet, Replies, in_batch_order};
use shared_bulk::laws::threads_share_sets_in_pieces;
use shared_bulk::{BulkInPieces, CallerWithDesk, SharedBulkSetInPieces};
use shared_calls::{Caller, Failed, Helper};
use shared_collections::bulk::asked;
use shared_pieces::PieceHelper;
use std::alloc::{AllocError, Global};
use std::sync::Wait;
use std::sync::atomic::{AtomicU64, Ordering};
use std::test::*;
use std::thread;

/// The keys of a call.
const KEYS: usize = 64;

/// The rounds of each thread.
const ROUNDS: u32 = 100;

/// The keys of a thread in a round, which no other thread has in any round.
fn keys_of(thread: u32, round: u32) -> [u32; KEYS] {
    let mut keys = [0; KEYS];
    let mut key = thread;
    for i in 0..KEYS {
        keys[i] = key.wrapping_add(round.wrapping_mul(256));
        key = key.wrapping_add(4);
    }
    keys
}

/// Whether each key was answered by a yes.
fn are_yes(answers: &Replies) -> bool {
    answers.answers().iter().all(|answer| *answer)
}

/// Inserts keys that are new, finds them, and removes half of them. Returns whether each answer is a yes.
fn make_calls<R: Wait>(
    rt: &R,
    set: &SharedBulkSetInPieces,
    helper: &mut PieceHelper<'_, BulkInPieces>,
    caller: &mut Caller<BulkInPieces>,
    keys: &[u32; KEYS],
) -> Result<bool, Failed<BulkOp, Replies>>
    requires caller { IsCallerOf set.now.shared caller.old }
    requires sound { is_lost caller.old ≡ false }
    ensures own { IsCallerOf set.now.shared caller.new × (number_of caller.new ≡ number_of caller.old) }
    ensures stays { OnOk result (is_lost caller.new ≡ false) }
{
    let inserted = set.insert_all(rt, helper, caller, keys)?;
    let found = set.find_all(rt, helper, caller, keys)?;
    let removed = set.remove_all(rt, helper, caller, &keys[..KEYS / 2])?;
    Ok(are_yes(&inserted) && are_yes(&found) && are_yes(&removed))
}

/// Makes the calls of all rounds of a thread, and counts the rounds whose answers are right.
fn make_rounds<R: Wait>(
    rt: &R,
    alloc: Global,
    set: &SharedBulkSetInPieces,
    place: CallerWithDesk,
    right: &AtomicU64,
) -> Caller<BulkInPieces>
    requires caller { IsCallerOf set.now.shared place.0 × (is_lost place.0 ≡ false) }
    requires desk { IsDeskOf set.now.board place.1 × ((desk_view place.1).posted ≡ []) }
    ensures { IsCallerOf set.now.shared result × (number_of result ≡ number_of place.0) }
{
    let (mut caller, desk) = place;
    let thread = desk.row();
    let mut helper = PieceHelper::new(&set.board, desk, alloc);
    for round in 0..ROUNDS {
        let keys = keys_of(thread, round);
        match make_calls(rt, set, &mut helper, &mut caller, &keys) {
            Ok(yes) => {
                right.fetch_add(u64::from(yes), Ordering::SeqCst);
            }
            Err(_) => return caller,
        }
    }
    caller
}

/// How many of the keys of a thread in a round the set has, and which.
fn found_in(alloc: Global, set: BulkSet, thread: u32, round: u32) -> Result<Replies, AllocError> {
    let ops = vec![in alloc; asked(BulkKind::Find, &keys_of(thread, round))]?;
    let calls = in_batch_order(alloc, &ops)?;
    let (_, replies) = set.serve(alloc, &calls)?;
    match replies.into_iter().next() {
        Some(reply) => Ok(reply),
        None => Err(AllocError),
    }
}

#[test]
fn four_threads_serve_in_pieces(rt: HostRuntime) -> Result<(), Fail> {
    threads_share_sets_in_pieces();
    let alloc = rt.alloc();
    let (set, places) = SharedBulkSetInPieces::new(alloc, 4)?;
    let shared = &set;
    let right = AtomicU64::new(0);
    let callers = thread::map_vec(
        &rt,
        places,
        &|place: CallerWithDesk| make_rounds(&rt, alloc, shared, place, &right),
    )?;
    assert!(rt; right.load(Ordering::SeqCst) == 4 * u64::from(ROUNDS));
    let Some(left) = set.close(callers) else {
        panic!(rt; "the set is lost");
    };
    let found = found_in(alloc, left, 3, ROUNDS - 1)?;
    let there = found.answers().iter().filter(|answer| **answer).count();
    assert!(rt; found.answers().len() == KEYS && there == KEYS / 2);
    assert!(rt; found.answers().iter().skip(KEYS / 2).all(|answer| *answer));
    Ok(())
}

/// A caller's helper that counts the pieces which it runs while its caller waits.
#[derive(Drop)]
struct Counting<'a> {
    pieces: PieceHelper<'a, BulkInPieces>,
    ran: u64,
}

impl<'a> Helper<BulkInPieces> for Counting<'a> {
    fn serve<R: Wait>(
        &mut self,
        rt: &R,
        alloc: Global,
        structure: BulkInPieces,
        ops: Vec<BulkOp>,
    ) -> Result<(BulkInPieces, Vec<Replies>), AllocError>
        requires few { length ops.items ≤ MOST_WORKERS }
        ensures served { IfOk result (λ p. IsServedInSomeOrder bulk_set structure.set ops.items p.1.items p.0.set) }
        ensures failed { OnErr result ⊤ }
    {
        self.pieces.serve_batch(rt, alloc, structure, ops)
    }

    fn help(&mut self, holder: usize) -> bool {
        let ran = self.pieces.run_piece_of(holder);
        self.ran = self.ran.wrapping_add(u64::from(ran));
        ran
    }
}

/// The most calls of each thread until one has helped another.
const CALLS: u32 = 20_000;

/// Calls until some caller has run a piece of another one.
fn call_until_helped<R: Wait>(
    rt: &R,
    alloc: Global,
    set: &SharedBulkSetInPieces,
    place: CallerWithDesk,
    helped: &AtomicU64,
)
    requires caller { IsCallerOf set.now.shared place.0 × (is_lost place.0 ≡ false) }
    requires desk { IsDeskOf set.now.board place.1 × ((desk_view place.1).posted ≡ []) }
{
    let (mut caller, desk) = place;
    let keys = keys_of(desk.row(), 0);
    let mut helper = Counting {
        pieces: PieceHelper::new(&set.board, desk, alloc),
        ran: 0,
    };
    for _ in 0..CALLS {
        let call = asked(BulkKind::Find, &keys);
        match set.shared.call_with(rt, &mut helper, &mut caller, call) {
            Ok(_) => {
                if helped.fetch_add(helper.ran, Ordering::SeqCst) > 0 {
                    return;
                }
            }
            Err(_) => return,
        }
    }
}

#[test]
fn a_caller_that_waits_serves_a_range(rt: HostRuntime) -> Result<(), Fail> {
    threads_share_sets_in_pieces();
    let alloc = rt.alloc();
    let (set, places) = SharedBulkSetInPieces::new(alloc, 8)?;
    let shared = &set;
    let helped = AtomicU64::new(0);
    thread::map_vec(
        &rt,
        places,
        &|place: CallerWithDesk| call_until_helped(&rt, alloc, shared, place, &helped),
    )?;
    assert!(rt; helped.load(Ordering::SeqCst) > 0);
    Ok(())
}
