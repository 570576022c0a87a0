//! The words of the command line: the file whose words are counted, and the number of threads.
ghost use Rattle.std.specs.Prelude.{◌≡◌, ◌≤◌, IfSome};
ghost use Rattle.std.specs.Option.{option_map};
ghost use Rattle.limits.specs.declared.TheConstants.{MOST_WORKERS};
ghost use Rattle.wordcount.specs.Words.{file_of, spelled};
ghost use Rattle.wordcount.specs.Code.{file_in};

use decimals::number_between;
use limits::MOST_WORKERS;

/// The file whose words are counted, and in how many threads.
#[derive(Clone, Copy)]
pub(crate) struct Count<'a> {
    pub(crate) file: &'a str,
    pub(crate) threads: usize,
}

/// The file and the threads that the words name, if they are a word that is not empty and does not begin with `--`, and
/// a decimal from 1 to `MOST_WORKERS`.
pub(crate) fn count_in(words: &[String]) -> Option<Count<'_>>
    ensures file { option_map file_in result ≡ file_of (spelled words.now) }
    ensures threads { IfSome result (λ count. (1 ≤ count.threads) × (count.threads ≤ MOST_WORKERS)) }
{
    let [file, threads] = words else {
        return None;
    };
    let threads = number_between(threads.as_str().as_bytes(), 1, u64::from(MOST_WORKERS))?;
    let file = file.as_str();
    if file.is_empty() || file.as_bytes().starts_with(b"--") {
        return None;
    }
    Some(Count {
        file,
        threads: threads as usize,
    })
}
