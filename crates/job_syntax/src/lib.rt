//! The syntax of the job language: the items that a text writes, or the fault that a reader meets in it from left to
//! right. `lexer` makes words of the bytes, each with its line. `parser` asks a `Cursor` for them word by word, and makes
//! items in one pass, with a stack of open blocks and the lets that they show: `read_items` gives the items that the
//! grammar gives the words, or their fault of reading. `laws` says which tokens name an object.
//!
//! `job_lang`, above, defines what the items mean and makes their job. In `specs/` the rules stand at the top, and what
//! only the code and its proofs cite in `Code/`.
#![tactic(auto)]

pub mod error;
pub mod fault;
mod item;
pub mod laws;
mod lexer;
mod parser;

pub use error::JobErr;
pub use fault::JobFault;
pub use item::{Argument, BlockKind, Item, Leaf};
pub use lexer::text::forbidden_line;
pub use lexer::word::{Word, WordOnLine};
pub use parser::cursor::Cursor;
pub use parser::read_items;
