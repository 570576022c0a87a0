//! Customers with tickets, in code: each draws a ticket from a counter and waits in a queue with it, and then a clerk
//! calls the lowest ticket that waits, again and again, and writes down each in a set.
ghost use Rattle.std.specs.Prelude.{◌≡◌, ◌+◌, ◌*◌, ◌≤◌, IfErr, IfOk, OnOk, length};
ghost use Rattle.job_uses.specs.Code.Growth.{HasGrown, IsInSeries, MayGrow};
ghost use Rattle.job_uses.specs.Refusals.{IsNotBuilt};
ghost use Rattle.limits.specs.declared.TheConstants.{MOST_LEAVES};

use job_builder::{BuildError, Builder, Handle, Order};
use seq_objects::Op;
use sp_order::Job;
use std::alloc::Global;

/// The job of a service, and the tickets and the calls of the clerk, in the order of the customers.
#[derive(Drop)]
pub struct Service {
    pub job: Job,
    pub tickets: Vec<Handle>,
    pub called: Vec<Handle>,
}

/// Adds a customer: the reply to the add is the number that is inserted.
fn customer(job: &mut Builder) -> Result<Handle, BuildError>
    requires { MayGrow job.old }
    ensures grown { OnOk result (HasGrown job.old job.new 2) }
    ensures cause { IfErr result (IsNotBuilt (length job.old.acts + 2)) }
{
    job.open(Order::Series)?;
    let ticket = job.call(Op::CounterAdd(0, 1))?;
    job.call_with(Op::PqInsert(0, 0), ticket)?;
    job.close()?;
    Ok(ticket)
}

/// Adds a call of the clerk: what is taken from the queue is inserted into the set.
fn clerk(job: &mut Builder) -> Result<Handle, BuildError>
    requires grows { MayGrow job.old }
    requires series { IsInSeries job.old }
    ensures grown { OnOk result (HasGrown job.old job.new 2) }
    ensures cause { IfErr result (IsNotBuilt (length job.old.acts + 2)) }
{
    let called = job.call(Op::PqTake(0))?;
    job.call_with(Op::TreeInsert(0, 0), called)?;
    Ok(called)
}

/// The job of so many customers, who come at once, and of a clerk behind them. It is refused as full only where it has
/// more leaves than a job may have.
pub fn ticket_job(alloc: Global, customers: usize) -> Result<Service, BuildError>
    ensures leaves { IfOk result (λ service. length service.job.acts ≡ 4 * customers) }
    ensures room { IfOk result (λ _. 4 * customers ≤ MOST_LEAVES) }
    ensures cause { IfErr result (IsNotBuilt (4 * customers)) }
{
    let mut job = Builder::new(alloc, 0);
    let mut tickets = Vec::new(alloc);
    let mut called = Vec::new(alloc);
    job.open(Order::Parallel)?;
    for _ in 0..customers {
        tickets.push(customer(&mut job)?)?;
    }
    job.close()?;
    for _ in 0..customers {
        called.push(clerk(&mut job)?)?;
    }
    let job = job.finish()?;
    Ok(Service {
        job,
        tickets,
        called,
    })
}
