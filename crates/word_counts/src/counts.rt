//! A map of words with their counts, which threads can share.
ghost use Rattle.std.specs.Prelude.{◌≡◌, ◌+◌, ◌≤◌, ◌++◌, ⊤, [], length, IfOk, OnOk, OnErr};
ghost use Rattle.limits.specs.declared.TheConstants.{MOST_WORKERS};
ghost use Rattle.shared_calls.specs.Serial.{IsServedInSomeOrder};
ghost use Rattle.word_counts.specs.Counts.{tally, entries_of, counted, count_in, line_of, lines_of};

use itoa::Buffer;
use shared_calls::Combined;
use std::alloc::{AllocError, Global};
use std::collections::BTreeMap;

/// Words with their counts, in the order of the words' bytes.
#[derive(Drop)]
pub struct WordCounts {
    pub(crate) map: BTreeMap<Vec<u8>, u64>,
}

/// Appends the line of a word.
fn push_line(text: &mut Vec<u8>, word: &[u8], count: u64) -> Result<(), AllocError>
    ensures { OnOk result (text.new.items ≡ text.old.items ++ line_of (word.now, count)) }
{
    let mut buffer = Buffer::new();
    text.extend_from_slice(word)?;
    text.extend_from_slice(b" ")?;
    text.extend_from_slice(buffer.format(count).as_bytes())?;
    text.extend_from_slice(b"\n")
}

impl WordCounts {
    /// No words.
    pub fn new(alloc: Global) -> WordCounts
        ensures { entries_of result ≡ [] }
    {
        WordCounts {
            map: BTreeMap::new(alloc),
        }
    }

    /// Counts a word once more, and returns its new count. A count that is at the end of 64 bits does not rise: the word
    /// is refused as if memory had run out.
    ///
    /// Time: logarithmic in the words that are there.
    pub fn add(&mut self, word: Vec<u8>) -> Result<u64, AllocError>
        ensures added { OnOk result (entries_of self.new ≡ counted (entries_of self.old) word.items) }
        ensures count { IfOk result (λ count. count ≡ count_in (entries_of self.old) word.items + 1) }
    {
        let before = self.map.get(&word).copied().unwrap_or(0);
        let Some(count) = before.checked_add(1) else {
            return Err(AllocError);
        };
        self.map.insert(word, count)?;
        Ok(count)
    }

    /// The words with their counts, one line each: the word, a space, its count.
    pub fn text(&self, alloc: Global) -> Result<Vec<u8>, AllocError>
        ensures { IfOk result (λ text. text.items ≡ lines_of (entries_of self.now)) }
    {
        let mut text = Vec::new(alloc);
        for (word, count) in self.map.iter() {
            push_line(&mut text, word.as_slice(), *count)?;
        }
        Ok(text)
    }
}

impl Combined for WordCounts {
    type Op = Vec<u8>;

    type Reply = u64;

    ghost object = { tally };

    ghost content = { entries_of };

    ghost fails = { λ counts words. ⊤ };

    fn serve(self, alloc: Global, ops: Vec<Vec<u8>>) -> Result<(WordCounts, Vec<u64>), AllocError>
        requires few { length ops.items ≤ MOST_WORKERS }
        ensures served { IfOk result (λ p. IsServedInSomeOrder tally (entries_of self) ops.items p.1.items (entries_of p.0)) }
    {
        let mut counts = self;
        let mut replies = Vec::with_capacity(alloc, ops.len())?;
        for word in ops {
            let count = counts.add(word)?;
            replies.push(count)?;
        }
        Ok((counts, replies))
    }
}
