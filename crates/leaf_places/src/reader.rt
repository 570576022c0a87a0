//! The places of the leaves of a text.
ghost use Rattle.std.specs.Prelude.{◌≡◌, ◌≤◌, IfOk, length};
ghost use Rattle.limits.specs.declared.TheConstants.{MOST_JOB_BYTES};
ghost use Rattle.job_syntax.specs.ItemsOf.{AreItemsOf};
ghost use Rattle.job_syntax.specs.Views.{items_of};
ghost use Rattle.job_syntax.specs.Words.{words_on_lines};
ghost use Rattle.job_lang.specs.Language.{Accepts};
ghost use Rattle.leaf_places.specs.Places.{ArePlacesIn, lines_of};

use crate::place::LeafPlace;
use crate::walk::push_items;
use job_syntax::{Cursor, Item, JobErr, read_items};
use std::alloc::{AllocError, Global};

/// The lines of the words of a text.
fn lines_in(alloc: Global, text: &[u8]) -> Result<Vec<u32>, AllocError>
    requires short { length text.now ≤ MOST_JOB_BYTES }
    ensures { IfOk result (λ lines. lines.items ≡ lines_of (words_on_lines text.now)) }
{
    let mut words = Cursor::new(text);
    let mut lines = Vec::new(alloc);
    while let Some(word) = words.next() {
        lines.push(word.line)?;
    }
    Ok(lines)
}

/// The items of an accepted text.
fn items_in(alloc: Global, text: &[u8]) -> Result<Vec<Item>, AllocError>
    requires short { length text.now ≤ MOST_JOB_BYTES }
    requires accepted { Accepts text.now }
    ensures { IfOk result (λ items. AreItemsOf (words_on_lines text.now) (items_of items.items)) }
{
    match read_items(alloc, text) {
        Ok(items) => Ok(items),
        Err(JobErr::Memory) => Err(AllocError),
        Err(JobErr::Bad(_)) => unreachable!(),
    }
}

/// The places of the leaves of an accepted text, from left to right.
///
/// Time: linear in the text, and in the leaves times the loops around each.
pub fn places_in(alloc: Global, text: &[u8]) -> Result<Vec<LeafPlace>, AllocError>
    requires short { length text.now ≤ MOST_JOB_BYTES }
    requires accepted { Accepts text.now }
    ensures { IfOk result (λ places. ArePlacesIn text.now places.items) }
{
    let items = items_in(alloc, text)?;
    let lines = lines_in(alloc, text)?;
    let mut places = Vec::new(alloc);
    push_items(alloc, &lines, 0, &items, &mut places)?;
    Ok(places)
}
