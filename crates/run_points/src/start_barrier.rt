//! The start barrier of the workers.

use crossbeam_utils::Backoff;
use std::sync::atomic::{AtomicU64, Ordering};

/// The most looks that a worker takes at the count of arrivals.
const MOST_LOOKS: u32 = 1_000;

/// A start barrier of at most 1,000 looks: a thread that could not be spawned never arrives. Without the barrier the
/// first thread would do most short jobs before another one starts.
pub fn wait_for_others(arrived: &AtomicU64, workers: u32) {
    arrived.fetch_add(1, Ordering::SeqCst);
    let backoff = Backoff::new();
    for _ in 0..MOST_LOOKS {
        if u64::from(workers) <= arrived.load(Ordering::SeqCst) {
            return;
        }
        backoff.snooze();
    }
}
