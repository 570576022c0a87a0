//! A run by turns over a shelf and sinks in memory, in which no read or write is told to fail.
ghost use Rattle.std.specs.Prelude.{◌≡◌, ◌-◌, [], length, Some, IfSome};
ghost use Rattle.std.specs.Option.{ForSome, option_and_then};
ghost use Rattle.bt_io.specs.Causes.{Rose};
ghost use Rattle.bt_io.specs.Memory.{file_named};
ghost use Rattle.program_io.specs.Lines.{Tells};
ghost use Rattle.batchrun.specs.Words.{command_of, spelled, file_of, IsStep};
ghost use Rattle.batchrun.specs.Lines.{fault_line};
ghost use Rattle.batchrun.specs.Outcomes.{Prints, HoldsJob, IsUnlessMemory, TextFits, FailsPast};
ghost use Rattle.batchrun.specs.Commands.{Runs, Driven, RunsModel, HasCause, Completes};

use crate::outcome::Outcome;
use crate::program::run_step;
use crate::status::Status;
use bt_io::{MemShelf, MemSink};
use std::alloc::Global;

/// Runs a `step` command over a shelf and a sink in memory, where no call is told to fail. If the shelf holds an
/// accepted job and the sink has room for the text of its report, the run is done, unless memory runs out.
pub fn step_in_memory(
    alloc: Global,
    words: &[String],
    shelf: &mut MemShelf,
    out: &mut MemSink,
    err: &mut MemSink,
) -> Outcome
    requires command { IsStep (command_of (spelled words.now)) }
    requires no_read_fails { shelf.old.fails ≡ [] }
    requires no_write_fails { out.old.fails ≡ [] }
    ensures answer { ForSome (option_and_then file_of (command_of (spelled words.now)))
        (λ file. (holds : HoldsJob (file_named shelf.old.files file))
        → TextFits holds.job result.report (out.old.room - length out.old.taken)
        → IsUnlessMemory result.status Status.Done) }
    ensures writes { FailsPast (Runs (command_of (spelled words.now)) (file_named shelf.old.files))
        result.status result.report (out.old.room - length out.old.taken) }
    ensures headline { Prints (Runs (command_of (spelled words.now)) (file_named shelf.old.files))
        result.status result.report (Some out.old.taken) (Some out.new.taken) }
    ensures driven { IfSome result.report
        (Driven (command_of (spelled words.now)) (file_named shelf.old.files)) }
    ensures model { IfSome result.report
        (RunsModel (command_of (spelled words.now)) (file_named shelf.old.files)) }
    ensures cause { ForSome (command_of (spelled words.now))
        (λ c. HasCause c (file_named shelf.old.files) result.status
        (Rose shelf.old.faults shelf.new.faults) (Rose out.old.faults out.new.faults)) }
    ensures completes { ForSome (command_of (spelled words.now))
        (λ c. Completes c (file_named shelf.old.files) result.status
        (Rose shelf.old.faults shelf.new.faults) (Rose out.old.faults out.new.faults)) }
    ensures tells { Tells (fault_line result.status) (Some err.old.taken) (Some err.new.taken)
        (Rose err.old.faults err.new.faults) }
{
    run_step(alloc, words, shelf, out, err)
}
