//! The readers of reports: for a job, and alone.
ghost use Rattle.std.specs.Prelude.{◌≡◌, Err, IfOk, OnOk};
ghost use Rattle.batch_history.specs.declared.report.Report.{Report};
ghost use Rattle.report_reader.specs.Texts.{HasText, IsReading, IsNamedReading, Named};
ghost use Rattle.report_reader.specs.Code.Objects.{IsKept, Extends};
ghost use Rattle.report_reader.specs.Code.Reading.{IsTableText, IsKnownText};
ghost use Rattle.report_reader.specs.declared.error.ReadReportErr.TheVariants.{NoReport};

use crate::batches::batches_of;
use crate::call::read_calls;
use crate::error::ReadReportErr;
use crate::head::read_head;
use crate::raw::{NamedReport, RawReport};
use crate::row::read_rows;
use crate::table::Table;
use batch_history::Rows;
use sp_order::Job;
use std::alloc::Global;

/// The report that has this text, with numbers by the table.
fn read_by(alloc: Global, table: &mut Table, text: &[u8]) -> Result<RawReport, ReadReportErr>
    requires { IsKept table.old }
    ensures some { IfOk result (IsTableText table.new text.now) }
    ensures extends { OnOk result (Extends table.old table.new) }
    ensures none { result ≡ Err NoReport → (named : Named) → IsKnownText table.old text.now named → ⊥ }
{
    // each row, each call and each batch takes at least a byte
    let most = text.len() as u64;
    let Some((head, rest)) = read_head(text, most) else {
        return Err(ReadReportErr::NoReport);
    };
    let (calls, rest) = read_calls(alloc, table, rest)?;
    let Some(rows) = read_rows(alloc, rest)? else {
        return Err(ReadReportErr::NoReport);
    };
    let Some(batches) = batches_of(alloc, calls.as_slice())? else {
        return Err(ReadReportErr::NoReport);
    };
    if !head.counts(rows.len(), calls.len(), batches.len()) {
        return Err(ReadReportErr::NoReport);
    }
    Ok(RawReport {
        workers: head.workers,
        batches,
        rows: Rows::of(rows),
    })
}

/// The raw report of the job that has this text.
///
/// Time: linear in the job and the text. Memory: linear in the names of the job and the text, whatever the counts in
/// its head line are.
pub fn read_report(alloc: Global, job: &Job, text: &[u8]) -> Result<RawReport, ReadReportErr>
    ensures reading { IsReading job.now text.now result }
    ensures reads { (report : Report) → HasText job.now text.now report → IfOk result (λ raw. raw ≡ report) }
{
    let mut table = Table::of(alloc, job)?;
    read_by(alloc, &mut table, text)
}

/// A report that has this text, whatever its job is, and the names of its objects.
///
/// Time and memory: linear in the text, whatever the counts in its head line are.
pub fn read_alone(alloc: Global, text: &[u8]) -> Result<NamedReport, ReadReportErr>
    ensures { IsNamedReading text.now result }
{
    let mut table = Table::new(alloc, true);
    match read_by(alloc, &mut table, text) {
        Ok(raw) => Ok(NamedReport {
            raw,
            names: table.into_names(),
        }),
        Err(error) => Err(error),
    }
}
