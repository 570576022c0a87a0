//! Interest on an account, whose balance is a counter: a leaf of work finds the interest on the balance that a deposit
//! is told, and a later call pays it in.
ghost use Rattle.std.specs.Prelude.{◌≡◌, ◌+◌, ◌*◌, ◌/◌, ◌<◌, ◌≤◌, IfErr, IfOk};
ghost use Rattle.job_builder.specs.declared.error.BuildError.TheVariants.{Memory};
ghost use Rattle.job_uses.specs.Interest.{PaysInterest, interest_on};
ghost use Rattle.limits.specs.declared.TheConstants.{MOST_WORKERS};

use job_builder::{BuildError, Builder, Handle};
use job_results::RanWith;
use job_runs::run_in_threads_with;
use leaf_work::LeafWork;
use seq_objects::{Op, Reply};
use sp_order::Job;
use std::alloc::{AllocError, Global};
use std::sync::Wait;
use std::thread::Threads;

/// Interest of so many percent. A leaf works on a balance.
#[derive(Drop)]
struct Interest {
    percent: u32,
    ghost most: { percent ≤ 100 },
}

impl LeafWork for Interest {
    ghost meaning = { λ interest balance. interest_on interest.percent balance };

    /// The interest on a balance, rounded down. It takes no memory.
    fn run(&self, _alloc: Global, balance: u32) -> Result<u32, AllocError> {
        Ok((balance as u64 * self.percent as u64 / 100) as u32)
    }
}

/// A job that adds a deposit to the counter, works on what the counter replies, and adds what the work finds; with the
/// last leaf.
fn interest_job(alloc: Global, deposit: u32) -> Result<(Job, Handle), BuildError>
    ensures job { IfOk result (λ made. PaysInterest deposit made.0) }
    ensures last { IfOk result (λ made. made.1.leaf ≡ 2) }
    ensures cause { IfErr result (λ error. error ≡ Memory) }
{
    let mut job = Builder::new(alloc, 0);
    let deposited = job.call(Op::CounterAdd(0, deposit))?;
    let interest = job.work_with(deposited)?;
    let paid = job.call_with(Op::CounterAdd(0, 0), interest)?;
    Ok((job.finish()?, paid))
}

/// What the counter replied to the last leaf.
fn balance_told(ran: &RanWith<Interest>, last: Handle, deposit: u32) -> u64
    requires job { PaysInterest deposit ran.now.job }
    requires last { last.leaf ≡ 2 }
    ensures { result ≡ deposit + interest_on ran.now.work.percent deposit }
{
    ran.is_serial();
    match ran.reply_of(last) {
        Reply::Number(balance) => balance,
        _ => unreachable!(),
    }
}

/// The balance after a deposit and so many percent of interest on it, which are paid in by as many threads as there are
/// workers.
pub fn balance_in_threads<R: Threads + Wait + Sync>(
    rt: &R,
    alloc: Global,
    deposit: u32,
    percent: u32,
    workers: u32,
) -> Result<u64, BuildError>
    requires percent { percent ≤ 100 }
    requires some_workers { 0 < workers }
    requires few_workers { workers ≤ MOST_WORKERS }
    ensures balance { IfOk result (λ balance. balance ≡ deposit + deposit * percent / 100) }
    ensures cause { IfErr result (λ error. error ≡ Memory) }
{
    let (job, paid) = interest_job(alloc, deposit)?;
    let work = Interest { percent };
    let ran = run_in_threads_with(rt, alloc, job, workers, &work)?;
    Ok(balance_told(&ran, paid, deposit))
}
