//! Runs in threads of a job whose leaves of work run a function of the caller's.
ghost use Rattle.std.specs.Prelude.{◌≡◌, IfOk, slice_index_or};

use batch_history::Report;
use leaf_work::LeafWork;
use seq_objects::Act;
use sp_order::{Job, Shape};
use std::alloc::{AllocError, Global};
use std::test::Fail;
use worker_loop::run_table_with;

/// Each leaf looks up the number at its own place.
#[derive(Drop)]
struct Lookup {
    numbers: Vec<u32>,
}

impl LeafWork for Lookup {
    ghost meaning = { λ self n. slice_index_or self.numbers.items n 0 };

    fn run(&self, _alloc: Global, n: u32) -> Result<u32, AllocError>
        ensures { IfOk result (λ value. value ≡ slice_index_or self.now.numbers.items n 0) }
    {
        match self.numbers.get(n as usize) {
            Some(number) => Ok(*number),
            None => Ok(0),
        }
    }
}

/// Each leaf but the first is out of memory.
struct OutOfMemory;

impl LeafWork for OutOfMemory {
    ghost meaning = { λ self n. n };

    fn run(&self, _alloc: Global, n: u32) -> Result<u32, AllocError>
        ensures { IfOk result (λ value. value ≡ n) }
    {
        if n == 0 { Ok(0) } else { Err(AllocError) }
    }
}

/// `par { work 0 work 1 work 2 }`.
fn three_works(alloc: Global) -> Result<Job, AllocError> {
    let left = Shape::Par(Box::new(alloc, Shape::Leaf)?, Box::new(alloc, Shape::Leaf)?);
    let shape = Shape::Par(Box::new(alloc, left)?, Box::new(alloc, Shape::Leaf)?);
    let acts = vec![in alloc; Act::Work(0), Act::Work(1), Act::Work(2)]?;
    Ok(Job::of(Some(shape), acts))
}

/// Whether the report has these values, one for each leaf.
fn has_values(report: &Report, values: &[u64]) -> bool {
    let rows = report.rows.list();
    if rows.len() != values.len() {
        return false;
    }
    for at in 0..values.len() {
        if rows[at].value != values[at] {
            return false;
        }
    }
    true
}

#[test]
fn leaves_in_threads_run_work_of_the_caller(rt: HostRuntime) -> Result<(), Fail> {
    let alloc = rt.alloc();
    let job = three_works(alloc)?;
    let lookup = Lookup {
        numbers: vec![in alloc; 7, 1]?,
    };
    let report = run_table_with(&rt, alloc, &job, 2, &lookup)?;
    assert!(rt; has_values(&report, &[7, 1, 0]));
    Ok(())
}

#[test]
fn a_leaf_that_is_out_of_memory_ends_the_run(rt: HostRuntime) -> Result<(), Fail> {
    let alloc = rt.alloc();
    let job = three_works(alloc)?;
    assert!(rt; run_table_with(&rt, alloc, &job, 2, &OutOfMemory).is_err());
    Ok(())
}
