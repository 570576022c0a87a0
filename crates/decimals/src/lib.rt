//! Reads unsigned decimal numbers, without a sign and without leading zeros.
//!
//! Reading is the inverse of writing: a reader returns a number exactly if the input is the decimal of a number within
//! its bounds. `word` reads a word that is a decimal as a whole, and `text` reads a decimal at the front of a text.
//! `laws` states that a reading is unique. The accepted decimals are exactly those that `itoa` and `format!` write. The
//! crate depends on std alone.
#![tactic(auto)]

pub mod laws;
pub mod text;
pub mod word;

pub use text::read_decimal;
pub use word::{decimal_in, number_between};
