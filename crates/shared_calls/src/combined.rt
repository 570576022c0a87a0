//! The structures that can be shared.
ghost use Rattle.std.specs.Prelude.{◌≤◌, List, length, IfOk, OnErr};
ghost use Rattle.shared_calls.specs.Serial.{SerialObject, IsServedInSomeOrder};
ghost use Rattle.limits.specs.declared.TheConstants.{MOST_WORKERS};

use std::alloc::{AllocError, Global};

/// A structure that serves a batch of calls as if they came one after another.
pub trait Combined: Sized + Drop {
    /// What a call asks, and what it is answered.
    type Op: Drop;

    type Reply: Drop;

    /// The serial object that the structure stands for.
    ghost object: { SerialObject Self.Op Self.Reply };

    /// The content of the structure, as a state of this object.
    ghost content: { Self → SerialObject.State object };

    /// What holds where the structure fails to serve these operations, for want of memory.
    ghost fails: { Self → List Self.Op → Type 0 };

    /// Serves a batch of at most one operation of each caller, in an order of its own, and returns the replies in the
    /// order of `ops`. The structure is lost if memory runs out.
    fn serve(
        self,
        alloc: Global,
        ops: Vec<Self::Op>,
    ) -> Result<(Self, Vec<Self::Reply>), AllocError>
        requires few { length ops.items ≤ MOST_WORKERS }
        ensures served { IfOk result (λ p. IsServedInSomeOrder object (content self) ops.items p.1.items (content p.0)) }
        ensures failed { OnErr result (fails self ops.items) };
}
