//! Scripts of batches: a text whose lines are calls, cut into batches by lines `go`; its reader, and the run of a
//! program that serves it.
//!
//! `read_script` gives exactly the script that a text is, or its first fault. A program's `Form` says which lines are
//! calls, so one reader serves every program over scripts. `line` cuts a text into lines and a line into words.
//! `reading` keeps three counts where the rules speak of places in lists, and a lemma shows that both give the same
//! script.
//!
//! `run_script` is the whole of such a program, over any object that `Serves` its batches. It carries the theorem on
//! what is printed, the cause of each status, and the line on err, once for all programs. A program states them again
//! in its own words.
//!
//! In `specs/` the rules stand at the top, and `Code/` has what only the code and its proofs cite. The crate stands on
//! `program_io`, and on `bt_io` for shelves and sinks.
#![tactic(auto)]

pub mod fault;
pub mod form;
pub mod front;
mod line;
pub mod name;
pub mod reader;
mod reading;
pub mod run;
pub mod script;
pub mod serves;
pub mod status;

pub use fault::{ScriptErr, ScriptFault};
pub use form::Form;
pub use front::push_line_front;
pub use name::Name;
pub use reader::read_script;
pub use run::{end_without_words, run_script};
pub use script::Script;
pub use serves::Serves;
pub use status::ScriptStatus;
