//! The head line of a report.
ghost use Rattle.std.specs.Prelude.{◌≡◌, ◌↔◌, ℕ, List, IsTrue, IfSome, IfNone};
ghost use Rattle.report_reader.specs.Code.Lines.{IsHeadThen};
ghost use Rattle.report_reader.specs.declared.head.Head.{Head};

use crate::words::{read_field, read_words};
use limits::MOST_WORKERS;

/// What the head line states: the number of workers, and how many rows, calls and batches follow.
#[derive(Clone, Copy)]
pub(crate) struct Head {
    pub workers: u32,
    pub leaves: u64,
    pub calls: u64,
    pub batches: u64,
}

impl Head {
    /// Whether these are the counts that the head states.
    pub(crate) fn counts(&self, leaves: usize, calls: usize, batches: usize) -> bool
        ensures { IsTrue result
            ↔ (self.now.leaves ≡ leaves) × (self.now.calls ≡ calls) × (self.now.batches ≡ batches) }
    {
        self.leaves == leaves as u64 && self.calls == calls as u64 && self.batches == batches as u64
    }
}

/// The head line at the front of the text, with counts of at most `most`, and the rest behind it.
pub(crate) fn read_head(text: &[u8], most: u64) -> Option<(Head, &[u8])>
    ensures some { IfSome result (λ read. IsHeadThen most text.now read.0 read.1.now) }
    ensures none { IfNone result ((head : Head) (rest : List ℕ) → IsHeadThen most text.now head rest → ⊥) }
{
    let (workers, rest) = read_field(text, b"workers ", MOST_WORKERS as u64)?;
    if workers == 0 {
        return None;
    }
    let (leaves, rest) = read_field(rest, b" leaves ", most)?;
    let (calls, rest) = read_field(rest, b" calls ", most)?;
    let (batches, rest) = read_field(rest, b" batches ", most)?;
    let rest = read_words(rest, b"\n")?;
    let head = Head {
        workers: workers as u32,
        leaves,
        calls,
        batches,
    };
    Some((head, rest))
}
