//! What one worker does in one column.

/// What a worker does in a column: in how many of its ticks, from `from` on and below `to`, its leaves work, and in how
/// many they call.
#[derive(Clone, Copy)]
pub struct Share {
    pub worker: u32,
    pub column: u32,
    pub from: u64,
    pub to: u64,
    pub work: u64,
    pub calls: u64,
}
