//! A counter that threads share.
ghost use Rattle.std.specs.Prelude.{◌≡◌, ℕ, ◌≤◌, ◌%◌, ◌^◌, List, length, sum_by, false, IfOk, OnErr};
ghost use Rattle.shared_calls.specs.declared.view.Entry.{Entry as EntryOf};
ghost use Rattle.shared_calls.specs.Serial.{IsServedInSomeOrder};
ghost use Rattle.shared_calls.specs.Callers.{IsServed};
ghost use Rattle.shared_calls.specs.Views.{AreNewCallers, IsCallerOf, number_of_callers, number_of, made, seen, is_lost};
ghost use Rattle.shared_calls.specs.Closing.{AreCallersOf, AreAllCalls};
ghost use Rattle.shared_structures.specs.Counters.{counter};
ghost use Rattle.limits.specs.declared.TheConstants.{MOST_WORKERS};

use shared_calls::{Caller, Combined, Failed, Shared};
use std::alloc::{AllocError, Global};
use std::sync::Wait;

/// A number of 64 bits, which wraps around. It never fails.
#[derive(Drop)]
pub struct Counter {
    number: u64,
}

impl Combined for Counter {
    type Op = u64;

    type Reply = u64;

    ghost object = { counter };

    ghost content = { λ c. c.number };

    ghost fails = { λ c ops. ⊥ };

    fn serve(self, _alloc: Global, ops: Vec<u64>) -> Result<(Counter, Vec<u64>), AllocError>
        requires few { length ops.items ≤ MOST_WORKERS }
        ensures served { IfOk result (λ p. IsServedInSomeOrder counter self.number ops.items p.1.items p.0.number) }
        ensures failed { OnErr result ⊥ }
    {
        let mut number = self.number;
        let mut sums = ops;
        for i in 0..sums.len() {
            number = number.wrapping_add(sums[i]);
            sums[i] = number;
        }
        Ok((Counter { number }, sums))
    }
}

/// A counter that 1 to `MOST_WORKERS` callers share. Notes go by its field.
pub struct SharedCounter {
    pub shared: Shared<Counter>,
}

impl Drop for SharedCounter {
    fn drop(self) {
        let SharedCounter { shared } = self;
        drop(shared);
    }
}

impl SharedCounter {
    /// A counter at 0, and its callers.
    ///
    /// Memory: proportional to the callers.
    pub fn new(
        alloc: Global,
        callers: usize,
    ) -> Result<(SharedCounter, Vec<Caller<Counter>>), AllocError>
        requires count { (1 ≤ callers) × (callers ≤ MOST_WORKERS) }
        ensures all { IfOk result (λ r. number_of_callers r.0.shared ≡ callers) }
        ensures callers { IfOk result (λ r. AreNewCallers callers r.0.shared r.1.items) }
    {
        let (shared, all) = Shared::share(alloc, Counter { number: 0 }, callers)?;
        Ok((SharedCounter { shared }, all))
    }

    /// Adds, and returns the new sum. If memory runs out, nothing is added, and the caller may try again.
    ///
    /// Memory: proportional to the callers.
    pub fn add<R: Wait>(
        &self,
        rt: &R,
        caller: &mut Caller<Counter>,
        addend: u64,
    ) -> Result<u64, AllocError>
        requires caller { IsCallerOf self.now.shared caller.old }
        requires sound { is_lost caller.old ≡ false }
        ensures own { IsCallerOf self.now.shared caller.new × (number_of caller.new ≡ number_of caller.old) }
        ensures stays { is_lost caller.new ≡ false }
        ensures served { IfOk result (λ sum. IsServed counter (number_of caller.old) (made caller.old) (seen caller.old) addend sum (made caller.new) (seen caller.new)) }
        ensures refused { OnErr result ((made caller.new ≡ made caller.old) × (seen caller.new ≡ seen caller.old)) }
    {
        match self.shared.call(rt, caller, addend) {
            Ok(sum) => Ok(sum),
            Err(Failed::Refused(_)) => Err(AllocError),
            Err(Failed::Lost(_)) => unreachable!(),
        }
    }

    /// Ends the sharing: the callers come back, all of them in the order of their numbers. Returns the sum of all
    /// addends, modulo 2^64.
    ///
    /// Memory: none.
    pub fn close(self, callers: Vec<Caller<Counter>>) -> u64
        requires callers { AreCallersOf self.shared callers.items }
        ensures sum { (log : List (EntryOf ℕ ℕ)) × AreAllCalls counter callers.items log × (result ≡ sum_by (λ e. e.op) log % 2 ^ 64) }
    {
        let SharedCounter { shared } = self;
        match shared.close(callers) {
            Some(counter) => counter.number,
            None => unreachable!(),
        }
    }
}
