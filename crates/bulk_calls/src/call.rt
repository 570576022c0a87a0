//! Calls of a set.
ghost use Rattle.std.specs.Prelude.{◌≡◌};

use crate::op::BulkOp;
use std::marker::Model;

/// A worker's call of the set. Contracts see its worker and its operation.
#[derive(Drop)]
pub struct BulkCall {
    pub worker: u32,
    pub what: BulkOp,
}

impl Model for BulkCall {
    ghost use Rattle.bulk_calls.specs.Views.{CallView};

    ghost Value = { CallView };

    ghost view = { λ call. record { worker = call.worker; what = call.what } };
}

impl BulkCall {
    /// The worker that calls.
    pub fn worker(&self) -> u32
        ensures { result ≡ self.now.worker }
    {
        self.worker
    }

    /// The operation.
    pub fn what(&self) -> &BulkOp
        ensures { result.now ≡ self.now.what }
    {
        &self.what
    }
}
