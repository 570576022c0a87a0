//! A large job, built in loops.
ghost use Rattle.std.specs.Prelude.{◌≡◌, ◌+◌, ◌*◌, ◌≤◌, IfErr, IfOk, OnOk, length};
ghost use Rattle.job_uses.specs.Code.Growth.{HasGrown, MayGrow};
ghost use Rattle.job_uses.specs.Refusals.{IsNotBuilt};
ghost use Rattle.limits.specs.declared.TheConstants.{MOST_LEAVES};

use job_builder::{BuildError, Builder, Order};
use seq_objects::Op;
use sp_order::Job;
use std::alloc::Global;

/// Adds a row: so many adds of 1 in series.
fn row(job: &mut Builder, columns: usize) -> Result<(), BuildError>
    requires { MayGrow job.old }
    ensures grown { OnOk result (HasGrown job.old job.new columns) }
    ensures cause { IfErr result (IsNotBuilt (length job.old.acts + columns)) }
{
    job.open(Order::Series)?;
    for _ in 0..columns {
        job.call(Op::CounterAdd(0, 1))?;
    }
    job.close()?;
    Ok(())
}

/// A job of rows in parallel, each of adds in series. It is refused as full only where it has more leaves than a job
/// may have.
pub fn grid_job(alloc: Global, rows: usize, columns: usize) -> Result<Job, BuildError>
    ensures leaves { IfOk result (λ job. length job.acts ≡ rows * columns) }
    ensures room { IfOk result (λ _. rows * columns ≤ MOST_LEAVES) }
    ensures cause { IfErr result (IsNotBuilt (rows * columns)) }
{
    let mut job = Builder::new(alloc, 0);
    job.open(Order::Parallel)?;
    for _ in 0..rows {
        row(&mut job, columns)?;
    }
    job.close()?;
    job.finish()
}
