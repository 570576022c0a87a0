//! A worker's hand: its private access to all deques.
ghost use Rattle.std.specs.Prelude.{◌≡◌};
ghost use Rattle.two_deques.specs.Hands.{held};

use crate::ends::Ends;
use crate::spot::Spot;

/// One worker's ends of all deques, those of ready nodes (`core`) and those of pieces (`batch`). It is moved to the
/// worker's thread.
pub struct Hand {
    pub(crate) worker: u32,
    pub(crate) core: Ends<u32>,
    pub(crate) batch: Ends<Spot>,
}

// A crate that drops a value proves the drop of each type inside, down to a type with an `impl`: this one ends that of
// the deques' ends.
impl Drop for Hand {
    fn drop(self) {
        let Hand {
            worker: _,
            core: _,
            batch: _,
        } = self;
    }
}

impl Hand {
    /// The number of the hand's worker.
    ///
    /// Memory: none.
    pub fn worker(&self) -> u32
        ensures { result ≡ (held self.now).worker }
    {
        self.worker
    }
}
