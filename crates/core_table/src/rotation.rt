//! Rotating a seat's list of slots, to bring one worker's slot to the head.
ghost use Rattle.std.specs.Prelude.{◌≡◌, true};
ghost use Rattle.table_rule.specs.Shows.{among};
ghost use Rattle.core_table.specs.Code.Rotations.{rotated, IsFirstAt};

use atomic_table::Seat;
use table_rule::{Slot, View};

/// Moves the head of the seat's list to its back, `times` times. The list exists in proofs only.
pub(crate) fn rotate_by(seat: &mut Seat<Slot, View>, times: usize)
    ensures table { (seat.new.table_id ≡ seat.old.table_id) × (seat.new.id ≡ seat.old.id) }
    ensures me { seat.new.me ≡ (seat.old.me.0, rotated times seat.old.me.1) }
{
    if times > 0 {
        rotate_by(seat, times - 1);
        seat.turn();
    }
}

/// The index at which `number` first occurs.
pub(crate) fn index_of(numbers: &[u32], number: u32) -> usize
    requires { among numbers.now number ≡ true }
    ensures { IsFirstAt numbers.now number result }
{
    for i in 0..numbers.len() {
        if numbers[i] == number {
            return i;
        }
    }
    unreachable!()
}
