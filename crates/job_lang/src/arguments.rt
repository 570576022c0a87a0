//! The argument of a leaf.
ghost use Rattle.std.specs.Prelude.{◌≡◌};
ghost use Rattle.std.specs.Option.{option_map};
ghost use Rattle.job_syntax.specs.Views.{argument_word, leaf_of};
ghost use Rattle.job_syntax.specs.Arguments.{leaf_argument};

use job_syntax::{Argument, Leaf};

/// The argument of a leaf, if it takes one.
pub(crate) fn leaf_argument(leaf: Leaf) -> Option<Argument>
    ensures { option_map argument_word result ≡ leaf_argument (leaf_of leaf) }
{
    match leaf {
        Leaf::Work(argument) => Some(argument),
        Leaf::Call { argument, .. } => argument,
    }
}
