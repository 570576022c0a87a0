//! A core can be sent to another thread.
//!
//! The search for `Send` on the whole core exceeds its budget, so its shop is shown first.
ghost use denote.Param.Send.{IsSend};
ghost use Rattle.batcher_core.specs.contracts.scheduler.CoreWith.{the_row as core_row};
ghost use Rattle.leaf_work.specs.contracts.brand.SpinWorkBrand.TheImpl.{ghosts as spin_ghosts};
ghost use Rattle.leaf_work.specs.contracts.spin.Spin.{the_row as spin_row};

use batcher_core::Core;
use launch_batch::laws::shops_go_to_threads;

/// The row of a `Send` type satisfies `IsSend`. For proofs only; it does nothing.
fn is_sent<T: Send>()
    ensures { IsSend T.row }
{}

/// A core can be sent. For proofs only; it does nothing.
pub(crate) fn cores_are_sent()
    ensures { IsSend (core_row spin_row spin_ghosts) }
{
    shops_go_to_threads();
    is_sent::<Core>();
}
