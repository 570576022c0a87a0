//! The drawing of a report: its file is read, and its picture is made.
ghost use Rattle.std.specs.Prelude.{◌≡◌, ◌≤◌, ◌<◌, length, IfOk, IfErr, IsTrue, IsSome};
ghost use Rattle.limits.specs.declared.TheConstants.{MOST_REPORT_BYTES};
ghost use Rattle.program_io.specs.Lines.{told_text};
ghost use Rattle.batchview.specs.Outcomes.{IsPicture, Refuses, Pictures};
ghost use Rattle.batchview.specs.Code.{end_line, StopsDrawing};

use crate::status::{ViewRefusal, status_of};
use crate::words::View;
use bt_io::{ReadErr, Shelf};
use limits::MOST_REPORT_BYTES;
use program_io::{End, Line, Program, Stop, read_file};
use report_picture::picture;
use report_reader::{ReadReportErr, read_alone, stops_at};
use std::alloc::{AllocError, Global};

/// Draws the report of a text.
fn draw(alloc: Global, text: &[u8]) -> Result<Vec<u8>, Stop<ViewRefusal>>
    requires { length text.now ≤ MOST_REPORT_BYTES }
    ensures ok { IfOk result (λ drawn. Pictures text.now drawn.items) }
    ensures err { IfErr result (λ stop. StopsDrawing stop text.now) }
{
    match read_alone(alloc, text) {
        Ok(read) => match picture(alloc, read.names.as_slice(), &read.raw) {
            Ok(drawn) => Ok(drawn),
            Err(AllocError) => Err(Stop::Memory),
        },
        Err(ReadReportErr::NoReport) => {
            let line = stops_at(text) as u32;
            Err(Stop::Refused(ViewRefusal::NoReport(line)))
        }
        Err(ReadReportErr::Memory) => Err(Stop::Memory),
    }
}

impl<'a> Program for View<'a> {
    type Told = ();

    type Refusal = ViewRefusal;

    ghost may_read = { λ s may. IsTrue (may s.file.now) };

    ghost are_held = { λ s held. IsSome (held s.file.now) };

    ghost answers = { λ s held told drawn. IsPicture (held s.file.now) drawn };

    ghost refuses = { λ s held. Refuses (held s.file.now) };

    ghost line = { λ _. end_line };

    fn answer<I: Shelf>(
        &self,
        alloc: Global,
        shelf: &mut I,
    ) -> Result<((), Vec<u8>), Stop<ViewRefusal>> {
        match read_file(alloc, shelf, self.file, MOST_REPORT_BYTES) {
            Ok(text) => match draw(alloc, text.as_slice()) {
                Ok(drawn) => Ok(((), drawn)),
                Err(stop) => Err(stop),
            },
            Err(ReadErr::Failed) => Err(Stop::ReadFault),
            Err(ReadErr::TooLong) => Err(Stop::Refused(ViewRefusal::TooLong)),
            Err(ReadErr::Memory) => Err(Stop::Memory),
        }
    }

    fn line_of(&self, end: End<ViewRefusal>) -> Option<Line<'static>>
        ensures { told_text result ≡ end_line end }
    {
        status_of(end).line()
    }
}
