//! The limits of a job whose words have no fault: the number of its leaves, and the range of its arguments.
ghost use Rattle.std.specs.Prelude.{◌≡◌, ◌<◌, ◌≤◌, IfSome, IfNone, length, slice_index_or};
ghost use Rattle.limits.specs.declared.TheConstants.{MOST_LEAVES, MOST_JOB_BYTES};
ghost use Rattle.job_lang.specs.Counts.{count};
ghost use Rattle.job_syntax.specs.Faults.{words_of};
ghost use Rattle.job_syntax.specs.Grammar.{items_words};
ghost use Rattle.job_lang.specs.Limits.{IsLeavesLine, argument_line};
ghost use Rattle.job_syntax.specs.Views.{items_of};
ghost use Rattle.job_syntax.specs.Words.{words_on_lines};
ghost use Rattle.job_syntax.specs.declared.lexer.word.WordOnLine.{WordOnLine};

mod argument_range;
mod leaf_count;
pub(crate) mod word_count;

use crate::text_limits::argument_range::{any_out_of_range, out_of_range_in_items};
use crate::text_limits::leaf_count::count_item;
use crate::text_limits::word_count::item_word_count;
use job_syntax::{Cursor, Item};

/// The most leaves that a job may have.
const MOST_LEAVES: u64 = limits::MOST_LEAVES as u64;

/// The line of the word at this place of a text.
fn line_at(text: &[u8], place: usize) -> u32
    requires short { length text.now ≤ MOST_JOB_BYTES }
    requires within { place < length (words_on_lines text.now) }
    ensures { (other : WordOnLine) → result ≡ (slice_index_or (words_on_lines text.now) place other).line }
{
    let mut words = Cursor::new(text);
    for _ in 0..place {
        words.next();
    }
    let Some(word) = words.next() else {
        unreachable!()
    };
    word.line
}

/// The line of the first word of the first top-level item with which the leaves are more than `MOST_LEAVES`, if there
/// is one. The words are read again only where there is one.
pub(crate) fn leaves_line(text: &[u8], items: &[Item]) -> Option<u32>
    requires writes { items_words (items_of items.now) ≡ words_of (words_on_lines text.now) }
    requires short { length text.now ≤ MOST_JOB_BYTES }
    ensures some { IfSome result (λ line. IsLeavesLine (words_on_lines text.now) (items_of items.now) line) }
    ensures none { IfNone result (count (items_of items.now) ≤ MOST_LEAVES) }
{
    let mut leaves = 0;
    let mut place = 0;
    for item in items {
        leaves += count_item(item);
        if leaves > MOST_LEAVES {
            return Some(line_at(text, place));
        }
        place += item_word_count(item);
    }
    None
}

/// The line of the first argument that is out of range in some copy, if there is one. The words are read again only
/// where there is one.
#[tactic(auto, using(crate::proofs::LimitLemmas::ArgumentRanges::found_line))]
pub(crate) fn argument_line(text: &[u8], items: &[Item]) -> Option<u32>
    requires { length text.now ≤ MOST_JOB_BYTES }
    ensures { result ≡ argument_line (words_on_lines text.now) (items_of items.now) }
{
    if !any_out_of_range(0, items) {
        return None;
    }
    let mut words = Cursor::new(text);
    out_of_range_in_items(0, items, &mut words)
}
