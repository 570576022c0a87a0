//! `Shelf`: named files, of which one at a time is chosen and read.
ghost use Rattle.std.specs.Prelude.{◌≡◌, ℕ, ◌+◌, ◌^◌, ◌<◌, ◌≤◌, List, Option, Bool, IsTrue, IsSome, IsOk, IfOk, OnOk, IsErrOf, vec_len, is_ok};
ghost use Rattle.std.specs.Io.{ReadsAtMost};
ghost use Rattle.std.specs.Io.KnownBytes.{IsAtEnd, ReadConsumes};
ghost use Rattle.bt_io.specs.Causes.{HasCause, Rose};
ghost use Rattle.bt_io.specs.Bytes.{IsTold, IsWhole, ConsumesCount, ConsumesAtMost};

use crate::Failed;
use std::alloc::Global;

/// Named files, of which one at a time is chosen and then read from its start.
///
/// The contents may be known to contracts (`Some`) or unknown (`None`); clauses on bytes say something only where they
/// are known. No call changes which names may be asked for, or what the shelf holds.
pub trait Shelf {
    /// Whether `choose` may be called with a name.
    ghost may: { Self → List ℕ → Bool };

    /// The bytes of the file of a name, where known.
    ghost held: { Self → List ℕ → Option (List ℕ) };

    /// Whether a file is chosen: the last `choose` succeeded.
    ghost ready: { Self → Bool };

    /// The bytes of the chosen file that are still to be read, where known.
    ghost left: { Self → Option (List ℕ) };

    /// The number of failed calls so far; it never falls.
    ghost faults: { Self → ℕ };

    /// Whether no call fails from now on, except a choice of a name whose `held` is `None`.
    ghost never_fails: { Self → Bool };

    /// Chooses the file called `name`; `read` begins at its start.
    fn choose(&mut self, name: &str) -> Result<(), Failed>
        requires { IsTrue (may self.old name.now) }
        ensures may { may self.new ≡ may self.old }
        ensures held { held self.new ≡ held self.old }
        ensures ready { ready self.new ≡ is_ok result }
        ensures left { OnOk result (IsTold (held self.old name.now) (left self.new)) }
        ensures cause { HasCause (faults self.old) (faults self.new) result }
        ensures never_fails { IsTrue (never_fails self.old) → IsTrue (never_fails self.new) }
        ensures found { IsTrue (never_fails self.old) → IsSome (held self.old name.now) → IsOk result };

    /// Reads the next bytes of the chosen file into the front of `buf`, and returns their number. For a non-empty
    /// `buf`, 0 means the end of the file.
    fn read(&mut self, buf: &mut [u8]) -> Result<usize, Failed>
        requires { IsTrue (ready self.old) }
        ensures may { may self.new ≡ may self.old }
        ensures held { held self.new ≡ held self.old }
        ensures ready { ready self.new ≡ ready self.old }
        ensures bound { ReadsAtMost result buf.new }
        ensures bytes { ReadConsumes (left self.old) (left self.new) result buf.new }
        ensures cause { HasCause (faults self.old) (faults self.new) result }
        ensures never_fails { IsTrue (never_fails self.old) → IsTrue (never_fails self.new) }
        ensures succeeds { IsTrue (never_fails self.old) → IsOk result };
}

/// Why a file was not read to its end.
#[derive(Clone, Copy)]
pub enum ReadErr {
    /// A call of `read` failed.
    Failed,
    /// The file has more bytes than the limit.
    TooLong,
    /// Out of memory.
    Memory,
}

/// Reads the rest of the chosen file, if that is at most `limit` bytes.
///
/// On `TooLong` exactly `limit + 1` bytes were consumed, otherwise at most `limit`. Every iteration but the last
/// reads at least one byte. Time and memory: at most linear in `limit`.
pub fn read_up_to<S: Shelf>(alloc: Global, shelf: &mut S, limit: usize) -> Result<Vec<u8>, ReadErr>
    requires ready { IsTrue (S.ready shelf.old) }
    requires limit { limit < 2 ^ 32 }

    ensures whole { IfOk result (λ bytes. IsWhole (S.left shelf.old) bytes.items × IsAtEnd (S.left shelf.new)) }
    ensures short { IfOk result (λ bytes. vec_len bytes ≤ limit) }
    ensures too_long { IsErrOf result ReadErr.TooLong → ConsumesCount (S.left shelf.old) (S.left shelf.new) (limit + 1) }
    ensures within { ¬ IsErrOf result ReadErr.TooLong → ConsumesAtMost (S.left shelf.old) (S.left shelf.new) limit }

    // `ReadErr::Failed` is returned only if the shelf's fault count rose (or is saturated).
    ensures later { S.faults shelf.old ≤ S.faults shelf.new }
    ensures failed { IsErrOf result ReadErr.Failed → Rose (S.faults shelf.old) (S.faults shelf.new) }
    ensures never_fails { IsTrue (S.never_fails shelf.old) → IsTrue (S.never_fails shelf.new) × (IsErrOf result ReadErr.Failed → ⊥) }

    // The shelf still has a chosen file, and neither its names nor its contents changed.
    ensures chosen { IsTrue (S.ready shelf.new) }
    ensures may { S.may shelf.new ≡ S.may shelf.old }
    ensures held { S.held shelf.new ≡ S.held shelf.old }
{
    let mut bytes = Vec::new(alloc);
    let mut buf = [0u8; 4096];
    for _ in 0..limit + 2 {
        let room = (limit + 1 - bytes.len()).min(4096);
        match shelf.read(&mut buf[..room]) {
            Err(Failed) => return Err(ReadErr::Failed),
            Ok(0) => return Ok(bytes),
            Ok(count) => {
                if bytes.len() + count > limit {
                    return Err(ReadErr::TooLong);
                }
                if bytes.extend_from_slice(&buf[..count]).is_err() {
                    return Err(ReadErr::Memory);
                }
            }
        }
    }
    unreachable!()
}
