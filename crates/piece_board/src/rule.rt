//! The invariant of the board, and what a seat learns from each of its steps.
ghost use Rattle.piece_board.specs.Rule.{ObeysRule, first_view, without_first_row, first_row};
ghost use Rattle.piece_board.specs.Steps.{TakesInHand, PutsBack, Posts, Claims, Strays, Finishes, Collects};

use crate::view::{Content, View};
use crate::work::Work;
use atomic_table::{Play, Split, TableRule};
use std::marker::PhantomData;

/// The invariant of the board, which `atomic_table` maintains at every moment. Its key is the number of rows.
pub struct BoardRule<W> {
    work: PhantomData<W>,
}

impl<W: Work> TableRule<Content<W::In, W::Out>, View<W::In>, u64> for BoardRule<W> {
    ghost holds = { λ rows. ObeysRule W.meets };

    ghost first = { first_view };
}

/// Splits a seat's first row off into a seat of its own.
pub struct RowCut;

impl<I> Split<View<I>> for RowCut {
    ghost left = { without_first_row };

    ghost right = { first_row };
}

/// A load of a place's word by which the seat that may use its slot takes the slot in hand.
pub struct Taken;

impl<I, O> Play<Content<I, O>, View<I>> for Taken {
    ghost then = { TakesInHand };
}

/// A load of a place's word by which the seat that has its slot in hand puts it back.
pub struct PutBack;

impl<I, O> Play<Content<I, O>, View<I>> for PutBack {
    ghost then = { PutsBack };
}

/// A post: the own place in hand becomes open.
pub struct Posted;

impl<I, O> Play<Content<I, O>, View<I>> for Posted {
    ghost then = { Posts };
}

/// A claim: an open place becomes claimed, or the claim is refused.
pub struct Claimed<W> {
    work: PhantomData<W>,
}

impl<W: Work> Play<Content<W::In, W::Out>, View<W::In>> for Claimed<W> {
    ghost then = { Claims W.meets };
}

/// A refused claim outside the board.
pub struct Strayed<W> {
    work: PhantomData<W>,
}

impl<W: Work> Play<Content<W::In, W::Out>, View<W::In>> for Strayed<W> {
    ghost then = { Strays W.meets };
}

/// A finish: a claimed place becomes full.
pub struct Finished;

impl<I, O> Play<Content<I, O>, View<I>> for Finished {
    ghost then = { Finishes };
}

/// A collect: a full place becomes free, or the collect finds no result.
pub struct Collected<W> {
    work: PhantomData<W>,
}

impl<W: Work> Play<Content<W::In, W::Out>, View<W::In>> for Collected<W> {
    ghost then = { Collects W.meets };
}
