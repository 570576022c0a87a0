//! The lexer: the tokens of a text, and the words that they spell.

pub(crate) mod scanner;
pub(crate) mod text;
pub(crate) mod word;
pub(crate) mod word_of;
