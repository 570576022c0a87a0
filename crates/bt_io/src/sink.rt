//! `Sink`: a destination for bytes, written piece after piece.
ghost use Rattle.std.specs.Prelude.{◌≡◌, ℕ, ◌+◌, ◌<◌, ◌≤◌, List, length, Option, IfOk, IsOk, OnOk};
ghost use Rattle.std.specs.Io.{WritesAtMost};
ghost use Rattle.std.specs.Io.KnownBytes.{Appends, WriteAppends};
ghost use Rattle.bt_io.specs.Causes.{HasCause};
ghost use Rattle.bt_io.specs.Bytes.{AppendsFront};

use crate::Failed;

/// A destination for bytes, which may take only a part of each piece it is given.
pub trait Sink {
    /// All bytes taken so far, where known.
    ghost taken: { Self → Option (List ℕ) };

    /// The number of failed writes so far; it never falls.
    ghost faults: { Self → ℕ };

    /// How many more bytes are guaranteed to be taken without a fault.
    ghost room_left: { Self → ℕ };

    /// Takes a front of the piece, and returns its length, which is positive for a non-empty piece.
    fn write(&mut self, piece: &[u8]) -> Result<usize, Failed>
        ensures bound { WritesAtMost result piece.now }
        ensures progress { 0 < length piece.now → IfOk result (λ count. 0 < count) }
        ensures bytes { WriteAppends (taken self.old) (taken self.new) result piece.now }
        ensures cause { HasCause (faults self.old) (faults self.new) result }
        ensures succeeds { 0 < length piece.now → length piece.now ≤ room_left self.old → IsOk result }
        ensures room_left { IfOk result (λ count. room_left self.old ≤ room_left self.new + count) };
}

/// Writes all of `bytes`, in as many writes as it takes. It fails only if a write of the sink fails; the sink has
/// then taken a front of `bytes`. Memory: none.
pub fn write_all<O: Sink>(sink: &mut O, bytes: &[u8]) -> Result<(), Failed>
    ensures ok { OnOk result (Appends (O.taken sink.old) (O.taken sink.new) bytes.now) }
    ensures front { AppendsFront (O.taken sink.old) (O.taken sink.new) bytes.now }
    ensures cause { HasCause (O.faults sink.old) (O.faults sink.new) result }
    ensures succeeds { length bytes.now ≤ O.room_left sink.old → IsOk result }
    ensures room_left { OnOk result (O.room_left sink.old ≤ O.room_left sink.new + length bytes.now) }
{
    let mut at = 0;
    while at < bytes.len() {
        at += sink.write(&bytes[at..])?;
    }
    Ok(())
}
