//! An in-memory `Shelf` whose failing calls are planned, for tests.
ghost use Rattle.std.specs.Prelude.{◌≡◌, ℕ, ◌+◌, ◌^◌, ◌<◌, ◌↔◌, ◌⊎◌, ◌==◌, [], length, min, take, drop, Some, None, IsTrue, IsOk, IsErr, IsSome, IsNone, IfOk, OnOk, Contains, is_ok, is_some, true, unwrap_or, if◌then◌else◌};
ghost use Rattle.std.specs.Io.{ReadsAtMost};
ghost use Rattle.std.specs.Io.KnownBytes.{ReadConsumes};
ghost use Rattle.bt_io.specs.Causes.{HasCause, saturating_succ};
ghost use Rattle.bt_io.specs.Bytes.{IsTold};
ghost use Rattle.bt_io.specs.Memory.{file_named, files_in, left_after, faults_after};
ghost use Rattle.bt_io.specs.Code.Kept.{bytes_at, left_of};

use crate::fault_plan::FaultPlan;
use crate::{Failed, Shelf};
use std::marker::Model;

/// Files in memory; any name may be asked for. Contracts see it as a `MemoryShelf`.
///
/// If two files have one name, the first is found. `choose` and `read` share one call count, which starts at 0.
#[derive(Drop)]
pub struct MemShelf {
    files: Vec<(String, Vec<u8>)>,
    cut: usize,
    plan: FaultPlan,
    chosen: Option<usize>,
    at: usize,
}

impl Model for MemShelf {
    ghost use Rattle.std.specs.Prelude.{◌<◌};
    ghost use Rattle.bt_io.specs.Memory.{MemoryShelf, files_in};
    ghost use Rattle.bt_io.specs.Code.Kept.{left_of};

    ghost Value = { MemoryShelf };

    ghost view = { λ s. record {
      files = files_in s.files.items;
      cut = s.cut;
      fails = s.plan.fails.items;
      calls = s.plan.calls;
      left = left_of (files_in s.files.items) s.chosen s.at;
      faults = s.plan.faults;
    } };

    ghost invariant = { λ s. 0 < s.cut };
}

/// The index of the first file called `name`.
fn place_of(files: &[(String, Vec<u8>)], name: &str) -> Option<usize>
    ensures place { left_of (files_in files.now) result 0 ≡ file_named (files_in files.now) name.now }
    ensures found { is_some result ≡ is_some (file_named (files_in files.now) name.now) }
{
    for (i, file) in files.iter().enumerate() {
        if file.0.as_str() == name {
            return Some(i);
        }
    }
    None
}

/// The bytes of the file at index `place` from offset `at`; empty past its end, or if there is no such file.
fn rest_of(files: &[(String, Vec<u8>)], place: usize, at: usize) -> &[u8]
    ensures rest { result.now ≡ drop at (bytes_at (files_in files.now) place) }
    ensures fits { at + length result.now < 2 ^ 64 }
{
    match files.get(place) {
        Some(file) => {
            let bytes = file.1.as_slice();
            &bytes[at.min(bytes.len())..]
        }
        None => &[],
    }
}

/// Copies the front of `rest` to the front of `buf`, at most `cut` bytes, and returns the number copied.
fn give(rest: &[u8], cut: usize, buf: &mut [u8]) -> usize
    ensures count { result ≡ min (min cut (length buf.old)) (length rest.now) }
    ensures bytes { take result buf.new ≡ take result rest.now }
{
    let count = cut.min(buf.len()).min(rest.len());
    buf[..count].copy_from_slice(&rest[..count]);
    count
}

impl MemShelf {
    /// A shelf of `files`. A read returns at most `cut` bytes; `fails` lists the numbers of the calls that fail.
    pub fn make(files: Vec<(String, Vec<u8>)>, cut: usize, fails: Vec<u64>) -> MemShelf
        requires { 0 < cut }
        ensures { result ≡ record {
          files = files_in files.items;
          cut = cut;
          fails = fails.items;
          calls = 0;
          left = None;
          faults = 0;
        } }
    {
        MemShelf {
            files,
            cut,
            plan: FaultPlan {
                fails,
                calls: 0,
                faults: 0,
            },
            chosen: None,
            at: 0,
        }
    }
}

impl Shelf for MemShelf {
    ghost may = { λ _ _. true };

    ghost held = { λ s. file_named s.files };

    ghost ready = { λ s. is_some s.left };

    ghost left = { λ s. s.left };

    ghost faults = { λ s. s.faults };

    ghost never_fails = { λ s. length s.fails == 0 };

    fn choose(&mut self, name: &str) -> Result<(), Failed>
        ensures held { file_named self.new.files ≡ file_named self.old.files }
        ensures ready { is_some self.new.left ≡ is_ok result }
        ensures left { OnOk result (IsTold (file_named self.old.files name.now) self.new.left) }
        ensures cause { HasCause self.old.faults self.new.faults result }
        ensures never_fails { IsTrue (length self.old.fails == 0) → IsTrue (length self.new.fails == 0) }
        ensures found { IsTrue (length self.old.fails == 0) →
            IsSome (file_named self.old.files name.now) → IsOk result }

        // The exact behaviour: when a choice fails, and the shelf's next state.
        ensures fails { IsErr result ↔
            (Contains self.old.fails self.old.calls ⊎ IsNone (file_named self.old.files name.now)) }
        ensures after { self.new ≡ record self.old {
          calls = saturating_succ self.old.calls;
          left = (if is_ok result then file_named self.old.files name.now else None);
          faults = faults_after self.old.faults result;
        } }
    {
        self.chosen = None;
        self.at = 0;
        self.plan.call()?;
        self.chosen = place_of(self.files.as_slice(), name);
        if self.chosen.is_none() {
            return Err(self.plan.fail());
        }
        Ok(())
    }

    fn read(&mut self, buf: &mut [u8]) -> Result<usize, Failed>
        requires { IsTrue (is_some self.old.left) }
        ensures held { file_named self.new.files ≡ file_named self.old.files }
        ensures ready { is_some self.new.left ≡ is_some self.old.left }
        ensures bound { ReadsAtMost result buf.new }
        ensures bytes { ReadConsumes self.old.left self.new.left result buf.new }
        ensures cause { HasCause self.old.faults self.new.faults result }
        ensures never_fails { IsTrue (length self.old.fails == 0) → IsTrue (length self.new.fails == 0) }
        ensures succeeds { IsTrue (length self.old.fails == 0) → IsOk result }

        // The exact behaviour: when a read fails, how many bytes it gives otherwise, and the shelf's next state.
        ensures fails { IsErr result ↔ Contains self.old.fails self.old.calls }
        ensures count { IfOk result (λ count.
            count ≡ min (min self.old.cut (length buf.old)) (length (unwrap_or self.old.left []))) }
        ensures after { self.new ≡ record self.old {
          calls = saturating_succ self.old.calls;
          left = left_after self.old.left result;
          faults = faults_after self.old.faults result;
        } }
    {
        self.plan.call()?;
        let Some(place) = self.chosen else {
            unreachable!();
        };
        let rest = rest_of(self.files.as_slice(), place, self.at);
        let count = give(rest, self.cut, buf);
        self.at += count;
        Ok(count)
    }
}
