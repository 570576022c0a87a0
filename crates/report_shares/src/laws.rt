//! The laws of the shares, each stated as the contract of an empty function.
ghost use Rattle.std.specs.Prelude.{ℕ};
ghost use Rattle.sp_order.specs.Jobs.{JobValue};
ghost use Rattle.batch_history.specs.Lawful.{Lawful};
ghost use Rattle.batch_history.specs.declared.report.Report.{Report};
ghost use Rattle.report_shares.specs.Meaning.{TakeEachTick, FitColumns, AreAllTicks};

/// The columns begin with the first tick, each begins where the one before ends, and the last one ends with the last
/// tick.
pub fn columns_take_each_tick()
    ensures { (leaves : ℕ) → TakeEachTick leaves }
{}

/// No worker of a lawful report works and calls for more ticks of a column than it has.
pub fn lawful_shares_fit_their_columns()
    ensures { (job : JobValue) (workers : ℕ) (report : Report) → Lawful job workers report → FitColumns report }
{}

/// All shares of a lawful report together are the ticks that its rows last.
pub fn lawful_shares_are_all_ticks()
    ensures { (job : JobValue) (workers : ℕ) (report : Report) → Lawful job workers report → AreAllTicks report }
{}
