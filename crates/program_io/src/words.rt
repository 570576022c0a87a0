//! The command-line arguments.
ghost use Rattle.std.specs.Prelude.{◌≡◌, ◌↔◌, drop, Err, IsErr, IfOk, IfErr};
ghost use Rattle.std.specs.IoError.{error_kind};
ghost use Rattle.std.specs.Vec.Iter.{into_iter_items};

use std::alloc::{AllocError, Global};
use std::env::Args;
use std::io::{self, ErrorKind};

/// Why the command-line arguments are not available.
#[derive(Clone, Copy)]
pub enum WordsErr {
    /// The arguments could not be taken as text: `args` failed, and not for lack of memory.
    NoText,
    /// Out of memory.
    Memory,
}

/// All arguments but the first, which is the program's name.
fn behind_first(alloc: Global, words: Args) -> Result<Vec<String>, AllocError>
    ensures { IfOk result (λ behind. behind.items ≡ drop 1 (into_iter_items words)) }
{
    words.skip(1).collect(alloc)
}

/// The arguments behind the program's name, given the result of `std::env::args`.
pub fn words_behind_name(alloc: Global, words: io::Result<Args>) -> Result<Vec<String>, WordsErr>
    ensures words { IfOk words (λ all. IfOk result (λ behind. behind.items ≡ drop 1 (into_iter_items all))) }
    ensures no_text { IfOk words (λ _. result ≡ Err WordsErr.NoText → ⊥) }
    ensures memory { IfErr words (λ error. (result ≡ Err WordsErr.Memory) ↔ (error_kind error ≡ ErrorKind.OutOfMemory)) }
    ensures refused { IsErr words → IsErr result }
{
    match words {
        Ok(words) => match behind_first(alloc, words) {
            Ok(behind) => Ok(behind),
            Err(AllocError) => Err(WordsErr::Memory),
        },
        Err(error) if error.kind() == ErrorKind::OutOfMemory => Err(WordsErr::Memory),
        Err(_) => Err(WordsErr::NoText),
    }
}
