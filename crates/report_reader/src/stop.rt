//! The line at which a text stops being that of a report.
ghost use Rattle.std.specs.Prelude.{◌≡◌, ◌+◌, ◌≤◌, ℕ, List, length, IfSome, IfNone};
ghost use Rattle.report_reader.specs.Stops.{may_follow, Follows, HasLines, StopsAt};

use crate::call::read_line;
use crate::head::read_head;
use crate::row::read_row;

/// The line that stands before another one.
#[derive(Clone, Copy)]
pub enum Before {
    /// The head line.
    Head,
    /// The line of a call, with the numbers of its batch and its place.
    Call(u64, u64),
    /// The line of a row.
    Row,
}

/// Whether the call with these numbers may stand behind the line `last`.
fn may_follow(last: Before, batch: u64, place: u64) -> bool
    ensures { result ≡ may_follow last batch place }
{
    match last {
        Before::Head => batch == 0 && place == 0,
        Before::Call(other, number) => {
            (batch == other && place as u128 == number as u128 + 1)
                || (batch as u128 == other as u128 + 1 && place == 0)
        }
        Before::Row => false,
    }
}

/// The line at the front of the text that may stand behind the line `last`, and the rest behind it.
fn read_next(last: Before, text: &[u8]) -> Option<(Before, &[u8])>
    ensures some { IfSome result (λ read. Follows last text.now read.0 read.1.now) }
    ensures none { IfNone result ((next : Before) (rest : List ℕ) → Follows last text.now next rest → ⊥) }
{
    match read_line(text) {
        Some((line, _, rest)) => {
            if may_follow(last, line.batch, line.place) {
                Some((Before::Call(line.batch, line.place), rest))
            } else {
                None
            }
        }
        None => match read_row(text) {
            Some((_, rest)) => Some((Before::Row, rest)),
            None => None,
        },
    }
}

/// How many lines the text behind a head line begins with, each of which may stand behind the one before it, and what
/// is left.
fn read_lines(text: &[u8]) -> (u64, &[u8])
    ensures lines { HasLines text.now result.0 result.1.now }
    ensures within { result.0 + length result.1.now ≤ length text.now }
{
    let mut last = Before::Head;
    let mut left = text;
    let mut count = 0;
    while let Some((next, rest)) = read_next(last, left) {
        last = next;
        left = rest;
        count += 1;
    }
    (count, left)
}

/// The number of the first line that keeps a text from being that of a report; for the text of a report it says nothing.
///
/// Time: linear in the text. Memory: none.
pub fn stops_at(text: &[u8]) -> u64
    ensures stops { StopsAt text.now result }
    ensures within { result ≤ length text.now + 2 }
{
    match read_head(text, u64::MAX) {
        None => 1,
        Some((_, behind)) => {
            let (count, left) = read_lines(behind);
            if left.is_empty() { 1 } else { count + 2 }
        }
    }
}
