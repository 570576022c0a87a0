//! The shell of a command-line program: it reads whole files, writes the answer once, and reports an early end in one
//! line.
//!
//! `read_file` reads a file to its end, up to a limit, and leaves the shelf ready for the next `choose`. `tell` writes
//! the diagnostic line. `words_behind_name` returns the command-line arguments. `run_program` combines these for a
//! single-threaded `Program`: it computes the answer and its lines, which are written once, and a diagnostic says how
//! the run ended. The crate promises nothing of its own; it defines once what the contracts of programs say about
//! output, the cause of the end, and the diagnostic. It depends on `bt_io`.
#![tactic(auto)]

pub mod input;
pub mod line;
pub mod program;
pub mod words;

pub use input::read_file;
pub use line::{Line, tell};
pub use program::{End, Program, Ran, Stop, run_program};
pub use words::{WordsErr, words_behind_name};
