//! The object that serves the batches of a script.
ghost use Rattle.std.specs.Prelude.{◌≡◌, ◌++◌, ℕ, List, IfOk, OnOk, string_bytes};
ghost use Rattle.std.specs.Thread.{IsSync};
ghost use Rattle.batch_script.specs.Scripts.{IsBatch};

use crate::form::Form;
use std::alloc::{AllocError, Global};
use std::thread::Threads;

/// An object that serves the batches of a script one after another, and appends the lines of each to a text.
///
/// A batch may be served in threads. They are joined before `serve` returns.
pub trait Serves: Form + Sized + Drop {
    /// What contracts see of the object. No value of it is made.
    type State;

    /// The state of an object.
    ghost state: { Self → Self.State };

    /// The state before any batch.
    ghost opening: { Self.State };

    /// The state after a batch.
    ghost after: { Self.State → List Self.Call → Self.State };

    /// The lines of a batch, by its number and the state before it.
    ghost lines: { ℕ → Self.State → List Self.Call → List ℕ };

    /// Makes an object that has served no batch.
    fn open(alloc: Global) -> Result<Self, AllocError>
        ensures { IfOk result (λ object. state object ≡ opening) };

    /// Serves the batch of this number, and appends its lines. Where memory runs out the object is dropped.
    fn serve<R: Threads + Sync>(
        self,
        rt: &R,
        alloc: Global,
        number: u32,
        calls: &[Self::Call],
        text: &mut String,
    ) -> Result<Self, AllocError>
        requires batch { IsBatch calls.now }
        requires shared { IsSync R.row }
        ensures state { IfOk result (λ next. state next ≡ after (state self) calls.now) }
        ensures text { OnOk result (string_bytes text.new
            ≡ string_bytes text.old ++ lines number (state self) calls.now) };
}
