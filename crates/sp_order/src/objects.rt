//! The numbers of the objects that a job's leaves call.
ghost use Rattle.std.specs.Prelude.{◌≡◌, length};
ghost use Rattle.sp_order.specs.Objects.{numbered as on_object, with_numbers as on_objects};

use seq_objects::Act;

/// The act, called on the object with this number if it is a call.
fn numbered(act: Act, number: u32) -> Act
    ensures { result ≡ on_object act number }
{
    match act {
        Act::Work(steps) => Act::Work(steps),
        Act::Call(op) => Act::Call(op.with_number(number)),
    }
}

/// The acts, each call on the object with the number at its place. It takes no memory.
pub(crate) fn with_numbers(mut acts: Vec<Act>, numbers: &[u32]) -> Vec<Act>
    requires { length numbers.now ≡ length acts.items }
    ensures { result.items ≡ on_objects acts.items numbers.now }
{
    for (leaf, number) in numbers.iter().enumerate() {
        acts[leaf] = numbered(acts[leaf], *number);
    }
    acts
}
