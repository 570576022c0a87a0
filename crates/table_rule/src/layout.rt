//! The layout of a table: where each of its words and slots stands. `specs/Words.antt` has the same places.
//!
//! A worker's status and its record slot stand at its number. The flag, the batch count, the tick and the stop word,
//! which all workers write, each have a cache line to themselves.
ghost use Rattle.std.specs.Prelude.{◌≡◌};
ghost use Rattle.table_rule.specs.Words.{flag_at, count_at, tick_at, stop_at, node_at, mark_at, value_at, word_count, shop_at, book_at, slot_count};

/// The words of a cache line. Two words so far apart never share one, wherever the first word of the table lies.
const LINE: usize = 8;

/// The slots behind the record slots: the shop's and the book's.
const SINGLE_SLOTS: usize = 2;

/// The layout of a table for these numbers of workers and nodes. No method of it takes memory.
#[derive(Clone, Copy)]
pub struct Layout {
    pub workers: u32,
    pub nodes: u32,
}

impl Layout {
    /// The number of words.
    pub fn word_count(self) -> usize
        ensures { result ≡ word_count self.workers self.nodes }
    {
        self.value(0) + self.nodes as usize
    }

    /// The number of slots.
    pub fn slot_count(self) -> usize
        ensures { result ≡ slot_count self.workers }
    {
        self.workers as usize + SINGLE_SLOTS
    }

    /// The shop's slot.
    pub fn shop_slot(self) -> usize
        ensures { result ≡ shop_at self.workers }
    {
        self.workers as usize
    }

    /// The book's slot.
    pub fn book_slot(self) -> usize
        ensures { result ≡ book_at self.workers }
    {
        self.workers as usize + 1
    }

    /// The flag's word.
    pub fn flag(self) -> usize
        ensures { result ≡ flag_at self.workers }
    {
        self.workers as usize + LINE
    }

    /// The word of the number of published batches.
    pub fn batch_count(self) -> usize
        ensures { result ≡ count_at self.workers }
    {
        self.workers as usize + 2 * LINE
    }

    /// The word of the next tick.
    pub fn tick(self) -> usize
        ensures { result ≡ tick_at self.workers }
    {
        self.workers as usize + 3 * LINE
    }

    /// The stop word.
    pub fn stop(self) -> usize
        ensures { result ≡ stop_at self.workers }
    {
        self.workers as usize + 4 * LINE
    }

    /// The word of a node's progress.
    pub fn node(self, node: u32) -> usize
        ensures { result ≡ node_at self.workers node }
    {
        self.workers as usize + 5 * LINE + node as usize
    }

    /// The word of a block's mark, which counts the sides that have arrived.
    pub fn mark(self, node: u32) -> usize
        ensures { result ≡ mark_at self.workers self.nodes node }
    {
        self.node(0) + self.nodes as usize + node as usize
    }

    /// The word of a leaf's value.
    pub fn value(self, node: u32) -> usize
        ensures { result ≡ value_at self.workers self.nodes node }
    {
        self.mark(0) + self.nodes as usize + node as usize
    }
}
