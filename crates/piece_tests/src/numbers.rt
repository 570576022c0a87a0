//! Numbers that look random, and are the same in each run.

/// The next number of the sequence. It has 31 bits.
pub(crate) fn next_number(state: &mut u64) -> u32 {
    *state = state
        .wrapping_mul(6364136223846793005)
        .wrapping_add(1442695040888963407);
    (*state >> 33) as u32
}
