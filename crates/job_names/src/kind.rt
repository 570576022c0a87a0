//! Kinds of blocks, as far as names are concerned.
ghost use Rattle.std.specs.Prelude.{◌≡◌};
ghost use Rattle.job_names.specs.Scopes.{is_loop, is_par};

/// How a block treats the names of its lets.
#[derive(Clone, Copy)]
pub enum Kind {
    /// Each item shows its lets to those behind it, and behind the block they stay shown.
    Series,
    /// The items do not see each other's lets, but behind the block all are shown.
    Par,
    /// As in a series, but behind the block its lets are gone.
    Loop,
}

impl Kind {
    /// Whether the lets of the block are gone behind it.
    pub fn is_loop(&self) -> bool
        ensures { result ≡ is_loop self.now }
    {
        matches!(self, Kind::Loop)
    }

    /// Whether the items of the block do not see each other's lets.
    pub fn is_par(&self) -> bool
        ensures { result ≡ is_par self.now }
    {
        matches!(self, Kind::Par)
    }
}
