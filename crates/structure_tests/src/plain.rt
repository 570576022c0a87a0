//! The serial objects, the texts of replies, the batch order and the work of a leaf.
ghost use Rattle.std.specs.Prelude.{ℕ, ◌<◌, ◌+◌, ◌^◌, length};
ghost use Rattle.seq_objects.specs.Kept.{store_in};
ghost use Rattle.structure_tests.specs.Counters.{AreAtMost};

use seq_objects::{Call, Op, Plain, Reply, comes_first, spin, value};
use std::alloc::{AllocError, Global};
use std::fmt::Write;
use std::test::Fail;
use test_rows::all_hold;

/// One row an operation, with its reply after the rows before it.
const CALLS: &[(Op, Reply)] = &[
    (Op::CounterAdd(0, 4294967295), Reply::Number(4294967295)),
    (Op::CounterAdd(0, 2), Reply::Number(4294967297)),
    (Op::Push(0, 7), Reply::Unit),
    (Op::Pop(0), Reply::Number(7)),
    (Op::Pop(0), Reply::Empty),
    (Op::TreeInsert(0, 5), Reply::Yes),
    (Op::TreeFind(0, 5), Reply::Yes),
    (Op::TreeNext(0, 4), Reply::Number(5)),
    (Op::TreeRemove(0, 5), Reply::Yes),
    (Op::PqInsert(0, 9), Reply::Unit),
    (Op::PqTake(0), Reply::Number(9)),
];

/// Two objects of each kind, in turn.
const TWO_OF_EACH: &[(Op, Reply)] = &[
    (Op::CounterAdd(1, 5), Reply::Number(5)),
    (Op::CounterAdd(4294967295, 7), Reply::Number(7)),
    (Op::CounterAdd(0, 1), Reply::Number(1)),
    (Op::CounterAdd(1, 4294967295), Reply::Number(4294967300)),
    (Op::CounterAdd(4294967295, 0), Reply::Number(7)),
    (Op::Push(1, 10), Reply::Unit),
    (Op::Push(2, 20), Reply::Unit),
    (Op::Pop(1), Reply::Number(10)),
    (Op::Pop(1), Reply::Empty),
    (Op::Pop(2), Reply::Number(20)),
    (Op::TreeInsert(1, 5), Reply::Yes),
    (Op::TreeInsert(2, 9), Reply::Yes),
    (Op::TreeFind(2, 5), Reply::No),
    (Op::TreeNext(1, 0), Reply::Number(5)),
    (Op::TreeRemove(1, 9), Reply::No),
    (Op::TreeRemove(2, 9), Reply::Yes),
    (Op::PqInsert(1, 3), Reply::Unit),
    (Op::PqInsert(2, 2), Reply::Unit),
    (Op::PqTake(1), Reply::Number(3)),
    (Op::PqTake(2), Reply::Number(2)),
];

/// Operations on objects that no operation has called before, and on such an object after an addition of 0.
const UNCALLED: &[(Op, Reply)] = &[
    (Op::Pop(9), Reply::Empty),
    (Op::TreeFind(9, 1), Reply::No),
    (Op::TreeNext(9, 0), Reply::Empty),
    (Op::TreeRemove(9, 1), Reply::No),
    (Op::PqTake(9), Reply::Empty),
    (Op::CounterAdd(9, 0), Reply::Number(0)),
    (Op::CounterAdd(9, 3), Reply::Number(3)),
    (Op::CounterAdd(8, 0), Reply::Number(0)),
];

/// Serves one operation where its counter is far from its end. The match has two arms alike, so that the range
/// of the addend is known.
fn serve_one(plain: &mut Plain, op: Op) -> Result<Reply, AllocError>
    requires { AreAtMost (2 ^ 63) (store_in plain.old) }
    ensures { (most : ℕ) → AreAtMost most (store_in plain.old) → AreAtMost (most + 2 ^ 32) (store_in plain.new) }
{
    match op {
        Op::CounterAdd(number, addend) => plain.serve(Op::CounterAdd(number, addend)),
        _ => plain.serve(op),
    }
}

/// The place of the first call with another reply, if there is one.
fn first_other_reply(plain: &mut Plain, calls: &[(Op, Reply)]) -> Result<Option<usize>, AllocError>
    requires few { length calls.now < 1000 }
    requires opening { AreAtMost 0 (store_in plain.old) }
{
    for (place, call) in calls.iter().enumerate() {
        let (op, reply) = *call;
        if serve_one(plain, op)? != reply {
            return Ok(Some(place));
        }
    }
    Ok(None)
}

/// The same of objects that no operation has called before.
pub(crate) fn first_wrong(alloc: Global, calls: &[(Op, Reply)]) -> Result<Option<usize>, AllocError>
    requires { length calls.now < 1000 }
{
    let mut plain = Plain::new(alloc);
    first_other_reply(&mut plain, calls)
}

#[test]
fn objects_reply_as_one_thread_has_them(rt: HostRuntime) -> Result<(), Fail> {
    all_hold(first_wrong(rt.alloc(), CALLS)?)
}

#[test]
fn objects_of_one_kind_are_apart(rt: HostRuntime) -> Result<(), Fail> {
    all_hold(first_wrong(rt.alloc(), TWO_OF_EACH)?)
}

#[test]
fn uncalled_objects_are_as_at_the_opening(rt: HostRuntime) -> Result<(), Fail> {
    all_hold(first_wrong(rt.alloc(), UNCALLED)?)
}

const REPLIES: &[Reply] = &[
    Reply::Number(4294967296),
    Reply::Unit,
    Reply::Empty,
    Reply::Yes,
    Reply::No,
];

/// A line for each of the replies, with its value.
fn lines(alloc: Global) -> Result<String, AllocError> {
    let mut lines = String::new(alloc);
    for reply in REPLIES {
        writeln!(lines, "{reply}: {}", value(*reply))?;
    }
    Ok(lines)
}

const LINES: &str = "4294967296: 4294967296
ok: 0
empty: 0
yes: 1
no: 0
";

#[test]
fn replies_are_written_in_words(rt: HostRuntime) -> Result<(), Fail> {
    assert!(rt; lines(rt.alloc())?.as_str() == LINES);
    Ok(())
}

/// Workers and operations in batch order.
const IN_ORDER: &[(u32, Op)] = &[
    (14, Op::CounterAdd(0, 1)),
    (15, Op::CounterAdd(0, 0)),
    (9, Op::CounterAdd(1, 2)),
    (8, Op::Push(0, 5)),
    (16, Op::Pop(0)),
    (7, Op::Pop(2)),
    (3, Op::TreeNext(0, 30)),
    (6, Op::TreeFind(0, 10)),
    (11, Op::TreeRemove(0, 7)),
    (5, Op::TreeInsert(0, 9)),
    (13, Op::TreeRemove(0, 9)),
    (2, Op::TreeInsert(0, 10)),
    (12, Op::TreeInsert(1, 4)),
    (1, Op::PqInsert(0, 3)),
    (4, Op::PqInsert(0, 2)),
    (10, Op::PqTake(0)),
    (0, Op::PqTake(1)),
];

fn call_of((worker, op): (u32, Op)) -> Call {
    Call {
        worker,
        leaf: 0,
        op,
    }
}

/// The first place whose call is not behind those of the places before it, and before those of the others, if there is
/// one.
fn first_misplaced() -> Option<usize> {
    for (first, a) in IN_ORDER.iter().enumerate() {
        for (second, b) in IN_ORDER.iter().enumerate() {
            if comes_first(&call_of(*a), &call_of(*b)) != (first < second) {
                return Some(first);
            }
        }
    }
    None
}

#[test]
fn calls_of_one_batch_have_an_order() -> Result<(), Fail> {
    all_hold(first_misplaced())
}

#[test]
fn work_has_a_value(rt: HostRuntime) {
    assert!(rt; (spin(0), spin(1), spin(3), spin(20)) == (0, 6, 406, 1395749216));
}
