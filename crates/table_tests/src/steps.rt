//! What a worker does between its calls.
ghost use Rattle.std.specs.Prelude.{◌≡◌, Some};
ghost use Rattle.core_table.specs.Passes.{next_in, pass_view, IsNotTrapped};
ghost use Rattle.table_tests.specs.Tables.{HasNoFlag};

use core_model::Next;
use core_table::{CoreTable, Pass};
use leaf_work::Spin;
use seq_objects::value;

/// Makes this act, unless it is a call or work. Whether it did.
fn make_act(table: &CoreTable<Spin>, pass: &mut Pass, act: Next) -> bool
    requires own { HasNoFlag table.now pass.old }
    requires free { IsNotTrapped pass.old }
    requires due { next_in table.now (pass_view pass.old) ≡ Some act }
    ensures own { HasNoFlag table.now pass.new }
    ensures worker { (pass_view pass.new).worker ≡ (pass_view pass.old).worker }
{
    match act {
        Next::Start { .. } => {
            table.tick(pass);
        }
        Next::End { .. } => {
            table.tick(pass);
        }
        Next::Open { .. } => {
            table.open_node(pass);
        }
        Next::Got { reply, .. } => table.keep(pass, value(reply)),
        Next::Finish { .. } => table.finish(pass),
        Next::Arrive { .. } => {
            table.arrive(pass);
        }
        Next::Call { .. } | Next::Spin { .. } => return false,
    }
    true
}

/// Makes the next act, unless it is a call or work, or the call is out. Whether it did.
fn step(table: &CoreTable<Spin>, pass: &mut Pass) -> bool
    requires own { HasNoFlag table.now pass.old }
    ensures own { HasNoFlag table.now pass.new }
    ensures worker { (pass_view pass.new).worker ≡ (pass_view pass.old).worker }
{
    if pass.trapped() {
        return false;
    }
    match table.next(pass) {
        Some(act) => make_act(table, pass, act),
        None => false,
    }
}

/// Makes acts until the task is idle or a call is due.
pub(crate) fn go_on(table: &CoreTable<Spin>, pass: &mut Pass)
    requires own { HasNoFlag table.now pass.old }
    ensures own { HasNoFlag table.now pass.new }
    ensures worker { (pass_view pass.new).worker ≡ (pass_view pass.old).worker }
{
    for _ in 0..100 {
        if !step(table, pass) {
            return;
        }
    }
}

/// Claims the node, if the task is idle and the node is ready, and goes on. Whether it did.
pub(crate) fn claim(table: &CoreTable<Spin>, pass: &mut Pass, node: u32) -> bool
    requires own { HasNoFlag table.now pass.old }
    ensures own { HasNoFlag table.now pass.new }
    ensures worker { (pass_view pass.new).worker ≡ (pass_view pass.old).worker }
{
    if pass.trapped() || table.next(pass).is_some() || !table.claim(pass, node) {
        return false;
    }
    go_on(table, pass);
    true
}
