//! The reply to a call.
ghost use Rattle.std.specs.Prelude.{◌≡◌};

use std::marker::Model;

/// A yes or a no for each key of a call, in the call's order. Contracts see the list of them.
#[derive(Drop)]
pub struct Replies {
    answers: Vec<bool>,
}

impl Model for Replies {
    ghost use Rattle.std.specs.Prelude.{Bool, List};

    ghost Value = { List Bool };

    ghost view = { λ replies. replies.answers.items };
}

impl Replies {
    /// The reply that has these answers.
    ///
    /// Memory: none.
    pub fn of(answers: Vec<bool>) -> Replies
        ensures { result ≡ answers.items }
    {
        Replies { answers }
    }

    /// The answers.
    pub fn answers(&self) -> &[bool]
        ensures { result.now ≡ self.now }
    {
        self.answers.as_slice()
    }
}
