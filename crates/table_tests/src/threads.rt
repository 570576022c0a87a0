//! Threads that share a table.
ghost use Rattle.std.specs.Prelude.{IfOk, IsSome};
ghost use Rattle.table_tests.specs.Tables.{IsUnused, AreUnused};

use core_table::laws::tables_go_to_threads;
use core_table::{CoreTable, Pass};
use leaf_work::Spin;
use seq_objects::Act;
use sp_order::{Job, Shape};
use std::alloc::{AllocError, Global};
use std::test::Fail;
use std::thread;
use std::thread::Threads;

/// A job of one leaf, which works for three steps.
fn one_leaf(alloc: Global) -> Result<Job, AllocError>
    ensures { IfOk result (λ job. IsSome job.shape) }
{
    let acts = vec![in alloc; Act::Work(3)]?;
    Ok(Job::of(Some(Shape::Leaf), acts))
}

/// Asks for the number of batches, and tries to claim the root.
fn tries(table: &CoreTable<Spin>, pass: Pass) -> bool
    requires { IsUnused table.now pass }
{
    let mut pass = pass;
    let told = table.since(&mut pass);
    let claimed = table.claim(&mut pass, 0);
    claimed && told == 0 && !table.root_done(&mut pass) && !table.stopped(&mut pass)
}

/// Whether each pass, on a thread of its own, claims the root.
fn try_in_threads<R: Threads + Sync>(
    rt: &R,
    table: &CoreTable<Spin>,
    passes: Vec<Pass>,
) -> Result<Vec<bool>, AllocError>
    requires passes { AreUnused table.now passes.items }
{
    tables_go_to_threads::<Spin>();
    thread::map_vec(rt, passes, &|pass: Pass| tries(table, pass))
}

#[test]
fn one_of_two_threads_claims_the_root(rt: HostRuntime) -> Result<(), Fail> {
    let alloc = rt.alloc();
    let job = one_leaf(alloc)?;
    let (table, passes) = CoreTable::<Spin>::make(alloc, &job, 2)?;
    let claimed = try_in_threads(&rt, &table, passes)?;
    assert!(rt; claimed.len() == 2 && claimed[0] != claimed[1]);
    Ok(())
}
