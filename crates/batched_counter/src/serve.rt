//! Serves a piece: prefix sums in place.
ghost use Rattle.std.specs.Prelude.{◌≡◌, ◌<◌, ◌^◌};
ghost use Rattle.batched_counter.specs.Sums.{total, sums_from};
ghost use Rattle.batched_counter.specs.Pieces.{Meets};

use crate::piece::{Piece, Served};

/// Overwrites each addend with the sum up to and including it, and returns the total.
fn sum_up(addends: &mut [u64]) -> u64
    requires { total addends.old < 2 ^ 64 }
    ensures sums { addends.new ≡ sums_from 0 addends.old }
    ensures total { result ≡ total addends.old }
{
    let mut sum = 0;
    for i in 0..addends.len() {
        sum += addends[i];
        addends[i] = sum;
    }
    sum
}

/// Computes the prefix sums and the total of a piece, in the piece's own vector.
///
/// Memory: none.
pub(crate) fn serve_piece(piece: Piece) -> Served
    ensures { Meets piece result }
{
    let Piece { addends } = piece;
    let mut prefixes = addends;
    let total = sum_up(&mut prefixes);
    Served { prefixes, total }
}
