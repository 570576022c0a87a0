//! Generated jobs: their canonical texts, worked out by hand from the rules, and the size of the largest job.
use crate::texts::{Size, is_told};
use job_writer::{generate, write_job};
use limits::MOST_GENERATED;
use std::alloc::{AllocError, Global};
use std::test::Fail;
use test_rows::all_hold;

/// Seeds and sizes, with the canonical texts of the jobs that they give.
const JOBS: &[(u64, u32, &str)] = &[
    (
        0,
        2,
        "seq { seq { par { tree insert 24287 stack push 15236 } tree find 24288 } \
seq { seq { stack pop stack pop } queue take } }\n",
    ),
    (
        0,
        3,
        "seq { seq { par { par { tree insert 24287 stack push 15236 } tree insert 40456 } \
par { tree find 24288 tree find 40457 } } seq { seq { stack pop stack pop } queue take } }\n",
    ),
    (
        1,
        1,
        "seq { seq { counter add 56299 stack pop } queue take }\n",
    ),
    (
        7,
        3,
        "seq { seq { par { par { counter add 51759 queue insert 34463 } tree insert 22168 } \
tree find 22169 } seq { stack pop seq { queue take queue take } } }\n",
    ),
    (
        18_446_744_073_709_551_615,
        1,
        "seq { seq { stack push 57812 seq { stack pop stack pop } } queue take }\n",
    ),
];

/// The canonical text of a generated job.
fn text(alloc: Global, seed: u64, size: u32) -> Result<Vec<u8>, AllocError> {
    if size < 1 || size > MOST_GENERATED {
        return Ok(Vec::new(alloc));
    }
    let job = generate(alloc, seed, size)?;
    if job.depth() > 15 {
        return Ok(Vec::new(alloc));
    }
    write_job(alloc, &job)
}

/// The place of the first seed that gives another job, if there is one.
fn first_other(alloc: Global) -> Result<Option<usize>, AllocError> {
    for (place, row) in JOBS.iter().enumerate() {
        let (seed, size, wanted) = *row;
        if text(alloc, seed, size)?.as_slice() != wanted.as_bytes() {
            return Ok(Some(place));
        }
    }
    Ok(None)
}

#[test]
fn seeds_give_these_jobs(rt: HostRuntime) -> Result<(), Fail> {
    all_hold(first_other(rt.alloc())?)
}

/// Whether the text of the largest job has this length, and is read as a job with all its leaves.
fn is_largest_read_back(alloc: Global) -> Result<bool, AllocError> {
    let text = text(alloc, 18_446_744_073_709_551_615, 5000)?;
    Ok(text.len() == 205_000 && is_told::<Size>(alloc, &text, "8732 leaves")?)
}

#[test]
fn the_largest_job_is_read_back(rt: HostRuntime) -> Result<(), Fail> {
    assert!(rt; is_largest_read_back(rt.alloc())?);
    Ok(())
}
