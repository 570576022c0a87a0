//! Serving the calls of one stripe: its puts first, and then its gets.
ghost use Rattle.std.specs.Prelude.{◌≡◌, ◌++◌, IfOk, OnOk, take, drop};
ghost use Rattle.batched_queue.specs.Code.Pieces.{Meets};

use crate::piece::{Piece, Served};
use piece_threads::Pieces;
use std::alloc::{AllocError, Global};
use std::collections::VecDeque;

/// The pieces of the queue's batches.
pub(crate) struct StripePieces;

/// Below this capacity a stripe keeps its memory.
const SMALL: usize = 64;

/// Appends items to a stripe.
fn put_all(items: &mut VecDeque<u32>, puts: &[u32]) -> Result<(), AllocError>
    ensures { OnOk result (items.new.items ≡ items.old.items ++ puts.now) }
{
    for item in puts {
        items.push_back(*item)?;
    }
    Ok(())
}

/// Takes `gets` items from the front of a stripe, or all where there are fewer.
fn take_oldest(
    alloc: Global,
    items: &mut VecDeque<u32>,
    gets: usize,
) -> Result<Vec<u32>, AllocError>
    ensures taken { IfOk result (λ taken. taken.items ≡ take gets items.old.items) }
    ensures left { OnOk result (items.new.items ≡ drop gets items.old.items) }
{
    let mut taken = Vec::new(alloc);
    for _ in 0..gets {
        let Some(item) = items.pop_front() else {
            return Ok(taken);
        };
        taken.push(item)?;
    }
    Ok(taken)
}

impl Pieces<Piece, Served> for StripePieces {
    ghost meets = { Meets };

    fn piece(alloc: Global, input: Piece) -> Result<Served, AllocError> {
        let Piece {
            number,
            mut items,
            puts,
            gets,
        } = input;
        put_all(&mut items, &puts)?;
        let taken = take_oldest(alloc, &mut items, gets)?;
        if items.capacity() >= SMALL && items.len() < items.capacity() / 8 {
            items.shrink_to(items.len() * 2);
        }
        Ok(Served {
            number,
            items,
            taken,
        })
    }
}
