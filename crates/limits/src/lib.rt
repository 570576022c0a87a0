//! The limits of jobs, of runs and of files, which contracts cite by name.
//!
//! A contract that means a limit cites its name. The texts that programs print spell the numbers, and so do examples and
//! tests. The crate depends on nothing.
#![tactic(auto)]

/// The most workers of a run, and so the most calls of one batch.
pub const MOST_WORKERS: u32 = 32;

/// The most leaves of a job.
pub const MOST_LEAVES: u32 = 20_000;

/// The most blocks of a job that are open at once.
pub const MOST_OPEN_BLOCKS: u32 = 32;

/// The places of a batch's pieces, over all kinds of structures.
pub const PLACES: u32 = 56;

/// The most turns of a schedule, which has one digit for each.
pub const MOST_TURNS: usize = 65_536;

/// The most leaves that are asked of a generated job.
pub const MOST_GENERATED: u32 = 5_000;

/// The most bytes of an object's name.
pub const MOST_NAME_BYTES: usize = 32;

/// The most bytes of a job.
pub const MOST_JOB_BYTES: usize = 1_048_576;

/// The most bytes of a report that is read.
pub const MOST_REPORT_BYTES: usize = 8_388_608;

/// The most bytes of a script.
pub const MOST_SCRIPT_BYTES: usize = 1_048_576;

/// The most calls of one batch of a script.
pub const MOST_BATCH_CALLS: usize = 32;

/// The most calls of a script.
pub const MOST_SCRIPT_CALLS: u32 = 100_000;

/// The most keys that one call of a bulk set carries.
pub const MOST_BULK_KEYS: usize = 64;
