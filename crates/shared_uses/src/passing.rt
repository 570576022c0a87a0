//! What one thread does in a pipeline: it puts items into the queue, and takes items out of it.
ghost use Rattle.std.specs.Prelude.{◌≡◌, [], ◌∷◌, ◌++◌, true, false, length, IsTrue};
ghost use Rattle.shared_calls.specs.Views.{IsCallerOf, number_of, made, is_lost};
ghost use Rattle.shared_uses.specs.Piping.{HasRoom, HasAllRoom, puts_of, takes_of};

use crossbeam_utils::Backoff;
use shared_calls::{Caller, Failed};
use shared_collections::{Fifo, SharedFifo};
use std::sync::Wait;

/// The items that a thread puts, in their order, and how many it takes then.
#[derive(Drop)]
pub struct Work {
    pub puts: Vec<u32>,
    pub takes: usize,
}

/// A thread with its work, and what it has taken.
#[derive(Drop)]
pub struct Part {
    pub caller: Caller<Fifo>,
    pub work: Work,
    pub taken: Vec<u32>,
}

/// Puts an item, and returns whether the queue took it: it does not where it is lost.
fn put<R: Wait>(rt: &R, queue: &SharedFifo, caller: &mut Caller<Fifo>, item: u32) -> bool
    requires caller { IsCallerOf queue.now.shared caller.old × (is_lost caller.old ≡ false) }
    ensures own { IsCallerOf queue.now.shared caller.new × (number_of caller.new ≡ number_of caller.old) }
    ensures put { IsTrue result → (is_lost caller.new ≡ false) × (puts_of (made caller.new) ≡ puts_of (made caller.old) ++ item ∷ []) × (takes_of (made caller.new) ≡ takes_of (made caller.old)) }
    ensures lost { result ≡ false → is_lost caller.new ≡ true }
{
    for _ in rt.forever() {
        match queue.put(rt, caller, item) {
            Ok(()) => return true,
            Err(Failed::Refused(_)) => {}
            Err(Failed::Lost(_)) => return false,
        }
    }
    unreachable!()
}

/// Puts the items, in their order, and returns whether the queue took them all.
fn put_all<R: Wait>(rt: &R, queue: &SharedFifo, caller: &mut Caller<Fifo>, items: &[u32]) -> bool
    requires caller { IsCallerOf queue.now.shared caller.old × (is_lost caller.old ≡ false) }
    ensures own { IsCallerOf queue.now.shared caller.new × (number_of caller.new ≡ number_of caller.old) }
    ensures put { IsTrue result → (is_lost caller.new ≡ false) × (puts_of (made caller.new) ≡ puts_of (made caller.old) ++ items.now) × (takes_of (made caller.new) ≡ takes_of (made caller.old)) }
    ensures lost { result ≡ false → is_lost caller.new ≡ true }
{
    for item in items {
        if !put(rt, queue, caller, *item) {
            return false;
        }
    }
    true
}

/// Takes items until the part has as many as it shall. Unless it is patient, it gives up where it has found none for a
/// while. It stops where the queue is lost.
fn take_share<R: Wait>(rt: &R, queue: &SharedFifo, part: &mut Part, patient: bool)
    requires caller { IsCallerOf queue.now.shared part.old.caller × (is_lost part.old.caller ≡ false) }
    requires room { HasRoom part.old }
    requires taken { takes_of (made part.old.caller) ≡ part.old.taken.items }
    ensures own { IsCallerOf queue.now.shared part.new.caller × (number_of part.new.caller ≡ number_of part.old.caller) }
    ensures room { HasRoom part.new }
    ensures work { part.new.work ≡ part.old.work }
    ensures took { is_lost part.new.caller ≡ false → (puts_of (made part.new.caller) ≡ puts_of (made part.old.caller)) × (takes_of (made part.new.caller) ≡ part.new.taken.items) }
    ensures all { patient ≡ true → is_lost part.new.caller ≡ false → length part.new.taken.items ≡ part.old.work.takes }
{
    let backoff = Backoff::new();
    for _ in rt.forever() {
        if part.taken.len() == part.work.takes || (!patient && backoff.is_completed()) {
            return;
        }
        match queue.get(rt, &mut part.caller) {
            Ok(Some(item)) => {
                part.taken.push_reserved(item);
                backoff.reset();
            }
            Ok(None) | Err(Failed::Refused(_)) => backoff.snooze(),
            Err(Failed::Lost(_)) => return,
        }
    }
    unreachable!()
}

/// The first round of a part: it puts its items, and takes what it finds.
pub(crate) fn pass<R: Wait>(rt: &R, queue: &SharedFifo, part: &mut Part)
    requires caller { IsCallerOf queue.now.shared part.old.caller × (is_lost part.old.caller ≡ false) × (made part.old.caller ≡ []) }
    requires room { HasAllRoom part.old }
    ensures own { IsCallerOf queue.now.shared part.new.caller × (number_of part.new.caller ≡ number_of part.old.caller) }
    ensures room { HasRoom part.new }
    ensures work { part.new.work ≡ part.old.work }
    ensures passed { is_lost part.new.caller ≡ false → (puts_of (made part.new.caller) ≡ part.old.work.puts.items) × (takes_of (made part.new.caller) ≡ part.new.taken.items) }
{
    if put_all(rt, queue, &mut part.caller, &part.work.puts) {
        take_share(rt, queue, part, false);
    }
}

/// The second round of a part: it takes what it still lacks. All items are put by then, so it waits for nobody.
pub(crate) fn finish<R: Wait>(rt: &R, queue: &SharedFifo, part: &mut Part)
    requires caller { IsCallerOf queue.now.shared part.old.caller }
    requires room { HasRoom part.old }
    requires passed { is_lost part.old.caller ≡ false → (puts_of (made part.old.caller) ≡ part.old.work.puts.items) × (takes_of (made part.old.caller) ≡ part.old.taken.items) }
    ensures own { IsCallerOf queue.now.shared part.new.caller × (number_of part.new.caller ≡ number_of part.old.caller) }
    ensures done { is_lost part.new.caller ≡ false → (puts_of (made part.new.caller) ≡ part.old.work.puts.items)
        × (takes_of (made part.new.caller) ≡ part.new.taken.items) × (length part.new.taken.items ≡ part.old.work.takes) }
{
    if !part.caller.is_lost() {
        take_share(rt, queue, part, true);
    }
}
