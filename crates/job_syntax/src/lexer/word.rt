//! The words of the language, each with its line.
use job_names::Name;
use seq_objects::{Kind, VerbWord};

/// What a token spells. `Number` holds `None` where its digits have a leading zero or do not fit 32 bits, and `Copies`
/// holds `None` where those of its factor or its addend do.
#[derive(Clone, Copy)]
pub enum Word {
    Open,
    Close,
    Work,
    /// The word of a kind of objects, and behind a colon the name of one of them.
    Object(Kind, Option<Name>),
    /// The word of a verb.
    Verb(VerbWord),
    Seq,
    Par,
    For,
    Pfor,
    Let,
    Equals,
    /// A run of digits, with its value.
    Number(Option<u32>),
    /// The number of the copy times a factor, plus an addend.
    Copies(Option<(u32, u32)>),
    /// No word of the language, but spelled as a name.
    Named(Name),
    /// Neither a word of the language nor a name.
    Other,
}

/// A word, and the line of its token's first byte.
#[derive(Clone, Copy)]
pub struct WordOnLine {
    pub word: Word,
    pub line: u32,
}
