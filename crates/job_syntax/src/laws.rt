//! The law of names: which tokens name an object.
ghost use Rattle.job_syntax.specs.Words.{IsKindWord};

use seq_objects::Kind;

/// A token is the word of a kind with a name exactly where it is the kind's word, a colon, and the name as it is spelled.
pub fn kind_words_take_names(kind: Kind)
    ensures { IsKindWord kind }
{}
