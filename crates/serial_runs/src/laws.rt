//! The laws of serial runs. Each is the contract of a function that does nothing.
ghost use Rattle.std.specs.Prelude.{ℕ};
ghost use Rattle.batch_history.specs.Book.{flat};
ghost use Rattle.batch_history.specs.Lawful.{Lawful, LawfulWith};
ghost use Rattle.batch_history.specs.declared.report.Report.{Report};
ghost use Rattle.serial_runs.specs.SerialRuns.{IsSerialRun, IsSerialRunWith};
ghost use Rattle.sp_order.specs.Jobs.{JobValue};

/// The calls of a lawful report, batch after batch, are a serial run of the job's calls, whatever its leaves of work
/// compute.
pub fn lawful_reports_with_work_are_serial()
    ensures { (work : ℕ → ℕ) (job : JobValue) (workers : ℕ) (report : Report) → LawfulWith work job workers report
        → IsSerialRunWith work job (flat report.history) }
{}

/// The calls of a lawful report, batch after batch, are a serial run of the job's calls, whose leaves of work spin.
pub fn lawful_reports_are_serial()
    ensures { (job : JobValue) (workers : ℕ) (report : Report) → Lawful job workers report
        → IsSerialRun job (flat report.history) }
{
    lawful_reports_with_work_are_serial();
}
