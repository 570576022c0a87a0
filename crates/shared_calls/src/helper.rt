//! How a caller serves a batch, and what it does while it waits.
ghost use Rattle.std.specs.Prelude.{◌≤◌, length, IfOk, OnErr};
ghost use Rattle.shared_calls.specs.Serial.{IsServedInSomeOrder};
ghost use Rattle.limits.specs.declared.TheConstants.{MOST_WORKERS};

use crate::combined::Combined;
use std::alloc::{AllocError, Global};
use std::sync::Wait;

/// How a caller serves the batches of its turns, and what it does while another caller serves one.
pub trait Helper<T: Combined> {
    /// Serves a batch, as `Combined::serve` does.
    fn serve<R: Wait>(
        &mut self,
        rt: &R,
        alloc: Global,
        structure: T,
        ops: Vec<T::Op>,
    ) -> Result<(T, Vec<T::Reply>), AllocError>
        requires few { length ops.items ≤ MOST_WORKERS }
        ensures served { IfOk result (λ p. IsServedInSomeOrder T.object (T.content structure) ops.items p.1.items (T.content p.0)) }
        ensures failed { OnErr result (T.fails structure ops.items) };

    /// Helps the caller of this number, which held the flag a moment ago, and returns whether there was something to do.
    fn help(&mut self, holder: usize) -> bool;
}

/// A caller that serves its batches alone, and helps nobody.
#[derive(Drop)]
pub struct Alone;

impl<T: Combined> Helper<T> for Alone {
    fn serve<R: Wait>(
        &mut self,
        _rt: &R,
        alloc: Global,
        structure: T,
        ops: Vec<T::Op>,
    ) -> Result<(T, Vec<T::Reply>), AllocError>
        requires few { length ops.items ≤ MOST_WORKERS }
        ensures served { IfOk result (λ p. IsServedInSomeOrder T.object (T.content structure) ops.items p.1.items (T.content p.0)) }
        ensures failed { OnErr result (T.fails structure ops.items) }
    {
        structure.serve(alloc, ops)
    }

    fn help(&mut self, _holder: usize) -> bool {
        false
    }
}
