//! The numbers in replies.
ghost use Rattle.std.specs.Prelude.{◌≡◌};
ghost use Rattle.shared_collections.specs.Code.Numbers.{IsSmall, number_in};

use seq_objects::Reply;

/// The number in a reply, if there is one.
pub(crate) fn small_number(reply: Reply) -> Option<u32>
    requires { IsSmall (number_in reply) }
    ensures { result ≡ number_in reply }
{
    match reply {
        Reply::Number(number) => Some(number as u32),
        _ => None,
    }
}
