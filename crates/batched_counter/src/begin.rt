//! Cuts a batch of additions into pieces.
ghost use Rattle.std.specs.Prelude.{◌≡◌, ◌+◌, ◌<◌, ◌≤◌, ◌/◌, ◌^◌, length, IfOk};
ghost use Rattle.batched_counter.specs.Sums.{total};
ghost use Rattle.batched_counter.specs.Calls.{addend_of, addends};
ghost use Rattle.batched_counter.specs.Pieces.{IsCutInto, addends_in};
ghost use Rattle.limits.specs.declared.TheConstants.{MOST_WORKERS};

use crate::piece::Piece;
use arrayvec::ArrayVec;
use seq_objects::{Call, Op};
use std::alloc::{AllocError, Global};

/// The addend of an operation; 0 for one that is not a `CounterAdd`.
fn addend_of(op: Op) -> u32
    ensures { result ≡ addend_of op }
{
    match op {
        Op::CounterAdd(_, addend) => addend,
        _ => 0,
    }
}

/// The addends of at most 2 calls, in call order.
fn addends_of(calls: &[Call]) -> ArrayVec<u64, 2>
    requires { length calls.now ≤ 2 }
    ensures { result.items ≡ addends calls.now }
{
    let mut all = ArrayVec::new();
    for call in calls {
        all.push(u64::from(addend_of(call.op)));
    }
    all
}

/// Cuts the calls into at most 16 pieces. Each has a sixteenth of the calls, rounded up; the last may be shorter. A
/// batch has at most `MOST_WORKERS` calls, so a piece has at most 2.
pub(crate) fn pieces_of(alloc: Global, calls: &[Call]) -> Result<Vec<Piece>, AllocError>
    requires fits { total (addends calls.now) < 2 ^ 64 }
    requires some { 0 < length calls.now }
    requires few { length calls.now ≤ MOST_WORKERS }
    ensures cut { IfOk result (λ v. IsCutInto ((length calls.now + 15) / 16) (addends calls.now) (addends_in v.items)) }
    ensures count { IfOk result (λ v. (1 ≤ length v.items) × (length v.items ≤ 16)) }
{
    let size = (calls.len() - 1) / 16 + 1;
    let mut pieces = Vec::with_capacity(alloc, calls.len().min(16))?;
    let mut at = 0;
    'cuts: while at < calls.len() {
        let end = (at + size).min(calls.len());
        let addends = addends_of(&calls[at..end]);
        pieces.push(Piece { addends })?;
        at = end;
    }
    Ok(pieces)
}
