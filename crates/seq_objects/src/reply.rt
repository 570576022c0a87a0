//! The replies of operations.
ghost use Rattle.std.specs.Prelude.{◌≡◌};
ghost use Rattle.seq_objects.specs.Objects.{number_or_empty, yes_or_no, value_of};

use std::fmt;

/// The reply of an operation.
#[derive(Clone, Copy, PartialEq, Eq)]
pub enum Reply {
    /// A number: the counter's new sum, an item or a key.
    Number(u64),
    /// The operation is done, and has nothing to return.
    Unit,
    /// There is no item or key to return.
    Empty,
    /// The set has changed (insert, remove), or has the key (find).
    Yes,
    /// The set has not changed (insert, remove), or lacks the key (find).
    No,
}

impl fmt::Display for Reply {
    ghost use Rattle.std.specs.Prelude.{Some};
    ghost use Rattle.seq_objects.specs.Words.{reply_words};

    ghost output = { λ reply. Some (reply_words reply) };

    fn fmt<W: fmt::Write>(&self, f: &mut fmt::Formatter<W>) -> fmt::Result {
        match self {
            Reply::Number(number) => write!(f, "{number}"),
            Reply::Unit => write!(f, "ok"),
            Reply::Empty => write!(f, "empty"),
            Reply::Yes => write!(f, "yes"),
            Reply::No => write!(f, "no"),
        }
    }
}

impl Reply {
    /// `Number` of the number, or `Empty` if there is none.
    pub fn number_or_empty(number: Option<u32>) -> Reply
        ensures { result ≡ number_or_empty number }
    {
        match number {
            Some(number) => Reply::Number(u64::from(number)),
            None => Reply::Empty,
        }
    }

    /// `Yes` for true, `No` for false.
    pub fn yes_or_no(yes: bool) -> Reply
        ensures { result ≡ yes_or_no yes }
    {
        if yes { Reply::Yes } else { Reply::No }
    }
}

/// The value of a leaf with this reply: the number, 1 for `Yes`, and 0 for every other reply.
///
/// Memory: none.
pub fn value(reply: Reply) -> u64
    ensures { result ≡ value_of reply }
{
    match reply {
        Reply::Number(number) => number,
        Reply::Yes => 1,
        Reply::Unit | Reply::Empty | Reply::No => 0,
    }
}
