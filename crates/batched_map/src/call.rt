//! Calls of a batched map.
ghost use Rattle.std.specs.Prelude.{◌≡◌};
ghost use Rattle.batched_map.specs.Maps.{is_query, key_in, op_key};

/// An operation of the map.
#[derive(Clone, Copy)]
pub enum MapOp {
    /// Sets the value of the key, and replies the old one.
    Put(u32, u32),
    /// Removes the key, and replies its value.
    Del(u32),
    /// Replies the value of the key.
    Get(u32),
    /// Replies how many keys are less.
    Rank(u32),
    /// Replies the key that has this many keys below it.
    Nth(u32),
}

/// A worker's call of the map.
#[derive(Clone, Copy)]
pub struct MapCall {
    pub worker: u32,
    pub what: MapOp,
}

impl MapOp {
    /// Whether it leaves the map as it is.
    pub fn is_query(self) -> bool
        ensures { result ≡ is_query self }
    {
        match self {
            MapOp::Get(_) | MapOp::Rank(_) | MapOp::Nth(_) => true,
            MapOp::Put(_, _) | MapOp::Del(_) => false,
        }
    }

    /// The key. `Nth` alone has none.
    pub fn key(self) -> Option<u32>
        ensures { result ≡ key_in self }
    {
        match self {
            MapOp::Put(key, _) | MapOp::Del(key) | MapOp::Get(key) | MapOp::Rank(key) => Some(key),
            MapOp::Nth(_) => None,
        }
    }

    /// The key, or 0 where there is none.
    pub(crate) fn key_or_zero(self) -> u32
        ensures { result ≡ op_key self }
    {
        self.key().unwrap_or(0)
    }
}
