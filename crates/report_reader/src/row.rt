//! The lines of rows.
ghost use Rattle.std.specs.Prelude.{◌≡◌, ℕ, List, IfSome, IfNone, IfOk};
ghost use Rattle.batch_history.specs.declared.row.Row.{Row};
ghost use Rattle.report_reader.specs.Code.Lines.{IsRowThen, AreRowsOf};

use crate::words::{read_field, read_words};
use batch_history::Row;
use std::alloc::{AllocError, Global};

/// The row whose line the text begins with, and the rest behind it.
pub(crate) fn read_row(text: &[u8]) -> Option<(Row, &[u8])>
    ensures some { IfSome result (λ read. IsRowThen text.now read.0 read.1.now) }
    ensures none { IfNone result ((row : Row) (rest : List ℕ) → IsRowThen text.now row rest → ⊥) }
{
    let (leaf, rest) = read_field(text, b"leaf ", 4_294_967_295)?;
    let (worker, rest) = read_field(rest, b" worker ", 4_294_967_295)?;
    let (start, rest) = read_field(rest, b" start ", u64::MAX)?;
    let (end, rest) = read_field(rest, b" end ", u64::MAX)?;
    let (value, rest) = read_field(rest, b" value ", u64::MAX)?;
    let rest = read_words(rest, b"\n")?;
    let row = Row {
        leaf: leaf as u32,
        worker: worker as u32,
        start,
        end,
        value,
    };
    Some((row, rest))
}

/// The rows whose lines the text is, to its end.
pub(crate) fn read_rows(alloc: Global, text: &[u8]) -> Result<Option<Vec<Row>>, AllocError>
    ensures some { IfOk result (λ read. IfSome read (λ rows. AreRowsOf text.now rows.items)) }
    ensures none { IfOk result (λ read. IfNone read ((rows : List Row) → AreRowsOf text.now rows → ⊥)) }
{
    let mut rows = Vec::new(alloc);
    let mut rest = text;
    while !rest.is_empty() {
        let Some((row, more)) = read_row(rest) else {
            return Ok(None);
        };
        rows.push(row)?;
        rest = more;
    }
    Ok(Some(rows))
}
