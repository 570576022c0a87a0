//! An in-memory `Sink` whose failing writes are planned, for tests.
ghost use Rattle.std.specs.Prelude.{◌≡◌, ℕ, ◌+◌, ◌-◌, ◌<◌, ◌≤◌, ◌↔◌, ◌⊎◌, ◌++◌, ◌==◌, [], length, min, take, Some, IsOk, IsErr, IfOk, Contains, if◌then◌else◌};
ghost use Rattle.std.specs.Io.{WritesAtMost};
ghost use Rattle.std.specs.Io.KnownBytes.{WriteAppends};
ghost use Rattle.bt_io.specs.Causes.{HasCause, saturating_succ};
ghost use Rattle.bt_io.specs.Memory.{room_left_of, taken_after, faults_after};

use crate::fault_plan::FaultPlan;
use crate::{Failed, Sink};
use std::alloc::{AllocError, Global};
use std::marker::Model;

/// Collects at most `room` bytes in memory. Contracts see it as a `MemorySink`.
///
/// A write fails if its number, counted from 0, is in the plan, or if a non-empty piece arrives when `room` is
/// used up.
#[derive(Drop)]
pub struct MemSink {
    bytes: Vec<u8>,
    room: usize,
    cut: usize,
    plan: FaultPlan,
}

impl Model for MemSink {
    ghost use Rattle.bt_io.specs.Memory.{MemorySink};
    ghost use Rattle.bt_io.specs.Code.Kept.{HasRoom};

    ghost Value = { MemorySink };

    ghost view = { λ s. record {
      taken = s.bytes.items;
      room = s.room;
      cut = s.cut;
      fails = s.plan.fails.items;
      calls = s.plan.calls;
      faults = s.plan.faults;
    } };

    ghost invariant = { λ s. HasRoom s.bytes s.room s.cut };
}

impl MemSink {
    /// An empty sink of at most `room` bytes in all and `cut` bytes a write. All memory is allocated here, none in
    /// `write`. `fails` lists the numbers of the writes that fail.
    pub fn make(
        alloc: Global,
        room: usize,
        cut: usize,
        fails: Vec<u64>,
    ) -> Result<MemSink, AllocError>
        requires { 0 < cut }
        ensures { IfOk result (λ sink. sink ≡ record {
          taken = [];
          room = room;
          cut = cut;
          fails = fails.items;
          calls = 0;
          faults = 0;
        }) }
    {
        Ok(MemSink {
            bytes: Vec::with_capacity(alloc, room)?,
            room,
            cut,
            plan: FaultPlan {
                fails,
                calls: 0,
                faults: 0,
            },
        })
    }

    /// All bytes written so far.
    pub fn bytes(&self) -> &[u8]
        ensures taken { result.now ≡ self.now.taken }
        ensures within { length result.now ≤ self.now.room }
    {
        self.bytes.as_slice()
    }
}

impl Sink for MemSink {
    ghost taken = { λ s. Some s.taken };

    ghost faults = { λ s. s.faults };

    ghost room_left = { room_left_of };

    fn write(&mut self, piece: &[u8]) -> Result<usize, Failed>
        ensures bound { WritesAtMost result piece.now }
        ensures progress { 0 < length piece.now → IfOk result (λ count. 0 < count) }
        ensures bytes { WriteAppends (Some self.old.taken) (Some self.new.taken) result piece.now }
        ensures cause { HasCause self.old.faults self.new.faults result }
        ensures succeeds { 0 < length piece.now → length piece.now ≤ room_left_of self.old → IsOk result }
        ensures room_left { IfOk result (λ count. room_left_of self.old ≤ room_left_of self.new + count) }

        // The exact behaviour: when a write fails, how many bytes it takes otherwise, and the sink's next state.
        ensures fails { IsErr result ↔ (Contains self.old.fails self.old.calls
            ⊎ ((0 < length piece.now) × (length self.old.taken ≡ self.old.room))) }
        ensures count { IfOk result (λ count.
            count ≡ min (min self.old.cut (length piece.now)) (self.old.room - length self.old.taken)) }
        ensures after { self.new ≡ record self.old {
          taken = taken_after self.old.taken piece.now result;
          calls = saturating_succ self.old.calls;
          faults = faults_after self.old.faults result;
        } }
    {
        self.plan.call()?;
        let left = self.room - self.bytes.len();
        if left == 0 && !piece.is_empty() {
            return Err(self.plan.fail());
        }
        let count = self.cut.min(piece.len()).min(left);
        if self.bytes.extend_from_slice(&piece[..count]).is_err() {
            unreachable!();
        }
        Ok(count)
    }
}
