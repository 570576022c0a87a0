//! The progress word of a node: how far it has come, and of a leaf that has run also who ran it, and between which ticks.
ghost use Rattle.std.specs.Prelude.{ℕ, ◌≡◌, ◌<◌};
ghost use Rattle.table_rule.specs.CoreWords.{Ran as RanBy};
ghost use Rattle.table_rule.specs.Words.{progress_code, worker_in, start_in, end_in};

use limits::MOST_WORKERS;

/// The word has room for ticks below this number.
pub const TICKS: u64 = 1 << 20;

/// The code of a node that is ready, in the word's two lowest bits.
pub const READY: u64 = 1;

/// The code of a node that is taken.
pub const TAKEN: u64 = 2;

/// The code of a node that is done. Of a leaf, the worker and the ticks stand above it.
pub const DONE: u64 = 3;

/// The codes of the two lowest bits.
pub const CODES: u64 = 4;

/// What the word of a leaf that has run says.
#[derive(Clone, Copy)]
pub struct RanLeaf {
    pub worker: u32,
    pub start: u64,
    pub end: u64,
}

impl RanLeaf {
    /// The word of a leaf that this worker has run, between these ticks. Memory: none.
    pub fn encode(self) -> u64
        requires worker { self.worker < MOST_WORKERS }
        requires start { self.start < TICKS }
        requires end { self.end < TICKS }
        ensures { result ≡ progress_code (RanBy self.worker self.start self.end) }
    {
        DONE + CODES * (self.worker as u64 + MOST_WORKERS as u64 * (self.start + TICKS * self.end))
    }

    /// What a word says of its leaf. Memory: none.
    pub fn decode(word: u64) -> RanLeaf
        ensures worker { result.worker ≡ worker_in word }
        ensures start { result.start ≡ start_in word }
        ensures end { result.end ≡ end_in word }
    {
        let starts = CODES * MOST_WORKERS as u64;
        RanLeaf {
            worker: (word / CODES % MOST_WORKERS as u64) as u32,
            start: word / starts % TICKS,
            end: word / (starts * TICKS),
        }
    }
}

/// Decoding gives back what was encoded.
pub fn decode_undoes_encode()
    ensures { (worker start end : ℕ) → worker < MOST_WORKERS → start < TICKS
        → (worker_in (progress_code (RanBy worker start end)) ≡ worker)
        × (start_in (progress_code (RanBy worker start end)) ≡ start)
        × (end_in (progress_code (RanBy worker start end)) ≡ end) }
{}
