//! Backoff between two turns or looks.

use crossbeam_utils::Backoff;

/// Snoozes after a turn that did nothing: each such turn in a row makes the snooze longer, until it yields the
/// processor. A turn that did something resets the backoff.
pub(crate) fn back_off(backoff: &Backoff, nothing: bool) {
    if nothing {
        backoff.snooze();
    } else {
        backoff.reset();
    }
}
