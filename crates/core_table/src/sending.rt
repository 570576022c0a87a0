//! A table is `Sync` and a pass is `Send`.
//!
//! The search for `Sync` on the whole table exceeds its budget, so each field is shown first. That a shop is `Send` is
//! a law of `launch_batch`.
ghost use denote.Builtin.{u32 as number_row};
ghost use denote.Param.Send.{IsSend, IsSync};
ghost use Rattle.atomic_table.specs.contracts.shared.Seat.{the_row as seat_row};
ghost use Rattle.table_rule.specs.contracts.slot.Slot.{the_row as slot_row};
ghost use Rattle.core_table.specs.contracts.table.CoreTable.{the_row as table_row};
ghost use Rattle.core_table.specs.contracts.table.Pass.{the_row as pass_row};
ghost use Rattle.table_rule.specs.contracts.view.View.{the_row as view_row};
ghost use Rattle.std.specs.contracts.alloc.Global.{the_row as heap_row};
ghost use Rattle.std.specs.contracts.impls.GlobalAllocator.TheImpl.{ghosts as heap_ghosts};
ghost use Rattle.std.specs.contracts.vec.Vec.{the_row as list_row};

use atomic_table::{Seat, Table};
use core_model::Setting;
use launch_batch::laws::shops_go_to_threads;
use leaf_work::WorkBrand;
use std::alloc::Global;
use table_rule::plays::SchedulerRule;
use table_rule::{Slot, View};

/// States that `T` is `Send`. For proofs only; does nothing at run time.
pub fn is_sent<T: Send>()
    ensures { IsSend T.row }
{}

/// States that `T` is `Sync`. For proofs only; does nothing at run time.
pub fn is_shared<T: Sync>()
    ensures { IsSync T.row }
{}

/// `Slot` is `Send`. For proofs only; does nothing at run time.
fn slots_are_sent()
    ensures { IsSend slot_row }
{
    shops_go_to_threads();
    is_sent::<Slot>();
}

/// The fields of `Pass` that need a proof, the seat and `owed`, are `Send`.
fn seats_are_sent()
    ensures seat { IsSend (seat_row slot_row view_row) }
    ensures owed { IsSend (list_row number_row heap_row heap_ghosts) }
{
    slots_are_sent();
    is_sent::<Seat<Slot, View>>();
    is_sent::<Vec<u32>>();
}

/// Threads can share a `CoreTable`, and a `Pass` can be sent to its worker's thread. For proofs only; does nothing at run
/// time.
pub fn tables_go_to_threads<B: WorkBrand + Send + Sync>()
    ensures shared { IsSync (table_row B.row B.WorkBrand) }
    ensures sent { IsSend pass_row }
{
    seats_are_sent();
    slots_are_sent();
    is_shared::<Setting>();
    is_shared::<Table<Slot, View, Setting, SchedulerRule<B>, Global>>();
}
