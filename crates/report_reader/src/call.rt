//! The lines of calls.
ghost use Rattle.std.specs.Prelude.{◌≡◌, ℕ, List, IfSome, IfNone, IfOk, OnOk};
ghost use Rattle.seq_objects.specs.Verbs.{kind_of_verb};
ghost use Rattle.report_reader.specs.Code.Lines.{IsLineThen, IsCallThen, AreCallsThen, call_of};
ghost use Rattle.report_reader.specs.Code.Objects.{IsKept, IsKnown, Extends};
ghost use Rattle.report_reader.specs.declared.call.Line.{Line as LineOf};

use crate::operation::{Spoken, read_op};
use crate::reply::read_reply;
use crate::table::Table;
use crate::words::{read_field, read_words};
use batch_history::Entry;
use seq_objects::{Op, Reply};
use std::alloc::{AllocError, Global};

/// The line of a call, apart from the name of its object.
#[derive(Clone, Copy)]
pub(crate) struct Line {
    pub batch: u64,
    pub place: u64,
    pub worker: u32,
    pub leaf: u32,
    pub spoken: Spoken,
    pub reply: Reply,
}

/// A call with the number of its batch and its place in it.
#[derive(Clone, Copy)]
pub(crate) struct Numbered {
    pub batch: u64,
    pub place: u64,
    pub entry: Entry,
}

impl Line {
    /// The call of the line, on the object with this number.
    fn with_number(self, number: u32) -> Numbered
        ensures { result ≡ call_of self number }
    {
        let entry = Entry {
            leaf: self.leaf,
            worker: self.worker,
            op: Op::of(self.spoken.verb, number, self.spoken.argument),
            reply: self.reply,
        };
        Numbered {
            batch: self.batch,
            place: self.place,
            entry,
        }
    }
}

/// The line of a call at the front of the text, the mark of the call's object, and the rest behind the line.
pub(crate) fn read_line(text: &[u8]) -> Option<(Line, &[u8], &[u8])>
    ensures some { IfSome result (λ read. IsLineThen text.now read.0 read.1.now read.2.now) }
    ensures none { IfNone result ((line : LineOf) (mark rest : List ℕ) → IsLineThen text.now line mark rest → ⊥) }
{
    let (batch, rest) = read_field(text, b"batch ", u64::MAX)?;
    let (place, rest) = read_field(rest, b" place ", u64::MAX)?;
    let (worker, rest) = read_field(rest, b" worker ", 4_294_967_295)?;
    let (leaf, rest) = read_field(rest, b" leaf ", 4_294_967_295)?;
    let rest = read_words(rest, b" ")?;
    let (spoken, mark, rest) = read_op(rest)?;
    let (reply, rest) = read_reply(rest)?;
    let line = Line {
        batch,
        place,
        worker: worker as u32,
        leaf: leaf as u32,
        spoken,
        reply,
    };
    Some((line, mark, rest))
}

/// The call whose line the text begins with, where the table has its object, and the rest behind it.
fn read_call<'a>(
    table: &mut Table,
    text: &'a [u8],
) -> Result<Option<(Numbered, &'a [u8])>, AllocError>
    requires kept { IsKept table.old }
    ensures kept { OnOk result (IsKept table.new) }
    ensures extends { OnOk result (Extends table.old table.new) }
    ensures some { IfOk result (λ read. IfSome read (λ call. IsCallThen table.new text.now call.0 call.1.now)) }
    ensures none { IfOk result (λ read. IfNone read ((line : LineOf) (mark rest : List ℕ)
        → IsLineThen text.now line mark rest → IsKnown table.new (kind_of_verb line.spoken.verb) mark → ⊥)) }
{
    let Some((line, mark, rest)) = read_line(text) else {
        return Ok(None);
    };
    match table.number(line.spoken.verb.kind(), mark)? {
        Some(number) => Ok(Some((line.with_number(number), rest))),
        None => Ok(None),
    }
}

/// The calls whose lines the text begins with, as far as there are any on objects of the table, and the rest behind
/// them.
pub(crate) fn read_calls<'a>(
    alloc: Global,
    table: &mut Table,
    text: &'a [u8],
) -> Result<(Vec<Numbered>, &'a [u8]), AllocError>
    requires kept { IsKept table.old }
    ensures kept { OnOk result (IsKept table.new) }
    ensures extends { OnOk result (Extends table.old table.new) }
    ensures calls { IfOk result (λ read. AreCallsThen table.new text.now read.0.items read.1.now) }
{
    let mut calls = Vec::new(alloc);
    let mut rest = text;
    while let Some((call, more)) = read_call(table, rest)? {
        calls.push(call)?;
        rest = more;
    }
    Ok((calls, rest))
}
