//! The run of the script that a file holds.
ghost use Rattle.std.specs.Prelude.{◌≡◌, ℕ, List, ◌<◌, length, Err, Some, IsSome, IsTrue, IfOk, IfErr};
ghost use Rattle.bt_io.specs.Causes.{Rose};
ghost use Rattle.limits.specs.declared.TheConstants.{MOST_SCRIPT_BYTES};
ghost use Rattle.program_io.specs.Reading.{WasRead};
ghost use Rattle.batch_script.specs.Scripts.{script_of};
ghost use Rattle.batch_script.specs.Texts.{script_text, batches_text};
ghost use Rattle.batch_script.specs.Outcomes.{Prints, HasCause};
ghost use Rattle.batch_script.specs.Code.Running.{StopsReading, Writes, FailsPast};

use crate::fault::ScriptErr;
use crate::reader::read_script;
use crate::run::text::text_of;
use crate::script::Script;
use crate::serves::Serves;
use crate::status::ScriptStatus;
use bt_io::{Failed, ReadErr, Shelf, Sink, write_all};
use limits::MOST_SCRIPT_BYTES;
use program_io::read_file;
use std::alloc::Global;
use std::thread::Threads;

/// The bytes of a file, or the status of a run that could not read it to its end.
fn read_bytes<I: Shelf>(alloc: Global, shelf: &mut I, file: &str) -> Result<Vec<u8>, ScriptStatus>
    requires { IsTrue (I.may shelf.old file.now) }
    ensures ok { IfOk result (λ bytes. WasRead MOST_SCRIPT_BYTES (I.held shelf.old file.now) bytes.items) }
    ensures err { IfErr result (λ status. StopsReading status (I.held shelf.old file.now)
        (Rose (I.faults shelf.old) (I.faults shelf.new))) }
    ensures sure { IsTrue (I.never_fails shelf.old)
        → IsSome (I.held shelf.old file.now)
        → result ≡ Err ScriptStatus.ReadFault
        → ⊥ }
{
    match read_file(alloc, shelf, file, MOST_SCRIPT_BYTES) {
        Ok(bytes) => Ok(bytes),
        Err(ReadErr::Failed) => Err(ScriptStatus::ReadFault),
        Err(ReadErr::TooLong) => Err(ScriptStatus::TooLong),
        Err(ReadErr::Memory) => Err(ScriptStatus::Memory),
    }
}

/// Serves a script, and writes its lines.
fn write_script<R: Threads + Sync, T: Serves, O: Sink>(
    rt: &R,
    alloc: Global,
    script: &Script<T::Call>,
    out: &mut O,
) -> ScriptStatus
    ensures { Writes (batches_text T.lines T.after 0 T.opening script.now) result
        (O.taken out.old) (O.taken out.new) (Rose (O.faults out.old) (O.faults out.new))
        (O.room_left out.old) }
{
    let Ok(text) = text_of::<R, T>(rt, alloc, script) else {
        return ScriptStatus::Memory;
    };
    match write_all(out, text.as_bytes()) {
        Ok(()) => ScriptStatus::Done,
        Err(Failed) => ScriptStatus::WriteFault,
    }
}

/// Reads the script of a file, serves it, and writes its lines.
pub(crate) fn run_file<R: Threads + Sync, T: Serves, I: Shelf, O: Sink>(
    rt: &R,
    alloc: Global,
    file: &str,
    shelf: &mut I,
    out: &mut O,
) -> ScriptStatus
    requires { IsTrue (I.may shelf.old file.now) }
    ensures prints { Prints (WasRead MOST_SCRIPT_BYTES (I.held shelf.old file.now)) (script_of T.call_of)
        (script_text T.call_of T.lines T.after T.opening) result (O.taken out.old) (O.taken out.new) }
    ensures cause { HasCause (script_of T.call_of) result (I.held shelf.old file.now)
        (Rose (I.faults shelf.old) (I.faults shelf.new)) (Rose (O.faults out.old) (O.faults out.new)) }
    ensures reads { IsTrue (I.never_fails shelf.old)
        → IsSome (I.held shelf.old file.now)
        → result ≡ ScriptStatus.ReadFault
        → ⊥ }
    ensures writes { FailsPast (WasRead MOST_SCRIPT_BYTES (I.held shelf.old file.now))
        (script_text T.call_of T.lines T.after T.opening) result (O.room_left out.old) }
{
    let bytes = match read_bytes(alloc, shelf, file) {
        Ok(bytes) => bytes,
        Err(status) => return status,
    };
    match read_script::<T>(alloc, bytes.as_slice()) {
        Ok(script) => write_script::<R, T, O>(rt, alloc, &script, out),
        Err(ScriptErr::Bad(fault)) => ScriptStatus::Bad(fault),
        Err(ScriptErr::Memory) => ScriptStatus::Memory,
    }
}
