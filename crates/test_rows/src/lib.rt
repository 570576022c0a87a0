//! What tests of rows share.
//!
//! A test lists its rows in a constant, finds the place of the first row that goes otherwise, and hands that place to
//! `all_hold`. `words_of` and `files_of` give the words and the files of a row to a program that is run over memory.
#![tactic(auto)]

mod given;
mod told;

pub use given::{files_of, words_of};
pub use told::all_hold;
