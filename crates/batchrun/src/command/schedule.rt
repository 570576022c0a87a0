//! The schedule word: one digit for each turn.
ghost use Rattle.std.specs.Prelude.{◌≡◌, ◌<◌, IfOk, IsTrue, nat_lt};
ghost use Rattle.std.specs.List.{AllByRecursion, list_all};
ghost use Rattle.batchrun.specs.Words.{digit_value, is_schedule, workers_named};

use crate::command::StepCommand;
use limits::{MOST_TURNS, MOST_WORKERS};
use std::alloc::{AllocError, Global};

/// The value of a digit; for a byte that is not a digit the most workers, which names none.
fn digit_value(byte: u8) -> u32
    ensures { result ≡ digit_value byte }
{
    match byte {
        b'0'..=b'9' => u32::from(byte - b'0'),
        b'a'..=b'v' => u32::from(byte - b'a') + 10,
        _ => MOST_WORKERS,
    }
}

/// Whether each digit names a worker below `workers`.
fn names_workers(word: &[u8], workers: u32) -> bool
    ensures { result ≡ list_all (λ byte. nat_lt (digit_value byte) workers) word.now }
{
    word.iter().all(|byte| digit_value(*byte) < workers)
}

/// Whether a word is a schedule of workers below `workers`.
pub(crate) fn is_schedule(word: &[u8], workers: u32) -> bool
    ensures { result ≡ is_schedule workers word.now }
{
    word.len() <= MOST_TURNS && names_workers(word, workers)
}

/// The workers that a schedule names. Memory: 4 bytes a digit.
fn decode_schedule(alloc: Global, word: &[u8], workers: u32) -> Result<Vec<u32>, AllocError>
    requires { IsTrue (is_schedule workers word.now) }
    ensures schedule { IfOk result (λ schedule. schedule.items ≡ workers_named word.now) }
    ensures workers { IfOk result
        (λ schedule. AllByRecursion (λ worker. worker < workers) schedule.items) }
{
    let mut schedule = Vec::with_capacity(alloc, word.len())?;
    for byte in word {
        schedule.push(digit_value(*byte))?;
    }
    Ok(schedule)
}

impl StepCommand<'_> {
    /// The workers of the first turns. Memory: 4 bytes a turn.
    pub(crate) fn turns(&self, alloc: Global) -> Result<Vec<u32>, AllocError>
        ensures schedule { IfOk result (λ turns. turns.items ≡ workers_named self.now.schedule.now) }
        ensures workers { IfOk result
            (λ turns. AllByRecursion (λ worker. worker < self.now.workers) turns.items) }
    {
        decode_schedule(alloc, self.schedule.as_bytes(), self.workers)
    }
}
