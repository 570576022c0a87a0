//! The fault plan of an in-memory object: which of its calls fail.
ghost use Rattle.std.specs.Prelude.{◌≡◌, ℕ, ◌↔◌, IsErr, Contains};
ghost use Rattle.bt_io.specs.Causes.{saturating_succ};
ghost use Rattle.bt_io.specs.Memory.{faults_after};

use crate::Failed;

/// Planned faults: `fails` has the numbers of the calls that fail, counted from 0; `calls` is the number of calls so
/// far, and `faults` how many of them failed. Both counts saturate.
#[derive(Drop)]
pub(crate) struct FaultPlan {
    pub(crate) fails: Vec<u64>,
    pub(crate) calls: u64,
    pub(crate) faults: u64,
}

impl FaultPlan {
    /// Counts a call, and fails if `fails` has its number.
    pub(crate) fn call(&mut self) -> Result<(), Failed>
        ensures listed { IsErr result ↔ Contains self.old.fails.items self.old.calls }
        ensures after { self.new ≡ record self.old {
          calls = saturating_succ self.old.calls;
          faults = faults_after self.old.faults result;
        } }
    {
        let listed = self.fails.contains(&self.calls);
        self.calls = self.calls.saturating_add(1);
        if listed { Err(self.fail()) } else { Ok(()) }
    }

    /// Counts a fault, and returns the error to answer.
    pub(crate) fn fail(&mut self) -> Failed
        ensures { self.new ≡ record self.old { faults = saturating_succ self.old.faults } }
    {
        self.faults = self.faults.saturating_add(1);
        Failed
    }
}
