//! The ticks of columns, and how many of them rows last.
ghost use Rattle.std.specs.Prelude.{◌≡◌, ◌+◌, ◌*◌, ◌-◌, ◌≤◌, ◌<◌, ◌^◌, length};
ghost use Rattle.report_shares.specs.Shares.{width_of, edge, lasts_in, ticks_in};

use batch_history::Row;

/// A product that fits.
fn product(factor: u32, number: u32) -> u64
    ensures { result ≡ factor * number }
{
    factor as u64 * number as u64
}

/// The ticks that a column is wide, for so many leaves.
pub fn width_of(leaves: u32) -> u32
    ensures { result ≡ width_of leaves }
{
    leaves / 60 + 1
}

/// The first tick of a column, for so many leaves.
pub(crate) fn edge(leaves: u32, column: u32) -> u64
    ensures { result ≡ edge leaves column }
{
    product(column, width_of(leaves)).min(2 * leaves as u64)
}

/// How many of the ticks from `from` on and below `to` a row lasts.
fn lasts_in(from: u64, to: u64, row: &Row) -> u64
    ensures lasts { result ≡ lasts_in from to row.now }
    ensures few { result ≤ to - from }
{
    to.min(row.end).saturating_sub(from.max(row.start))
}

/// How many of the ticks from `from` on and below `to` rows last, all together.
pub(crate) fn ticks_in(from: u64, to: u64, rows: &[Row]) -> u64
    requires few { length rows.now < 2 ^ 32 }
    requires narrow { to ≤ from + 2 ^ 31 }
    ensures { result ≡ ticks_in from to rows.now }
{
    let mut ticks = 0;
    for row in rows {
        ticks += lasts_in(from, to, row);
    }
    ticks
}
