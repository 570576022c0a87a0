//! The entries of a map.

/// A key with its value.
#[derive(Clone, Copy)]
pub struct Entry {
    pub key: u32,
    pub val: u32,
}
