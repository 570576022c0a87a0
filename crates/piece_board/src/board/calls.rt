//! The four operations on a board: post, claim, finish and collect.
ghost use Rattle.std.specs.Prelude.{◌≡◌, ◌≢◌, ◌<◌, ◌≤◌, None, Some};
ghost use Rattle.std.specs.Prelude.{IfNone, IfSome, IsSomeAnd, MatchBool};
ghost use Rattle.limits.specs.declared.TheConstants.{MOST_WORKERS};
ghost use Rattle.piece_board.specs.Desks.{number_of, posted_at, after_post, after_claim};
ghost use Rattle.piece_board.specs.Desks.{after_refusal, after_finish, after_collect};
ghost use Rattle.piece_board.specs.Desks.{after_empty_collect};
ghost use Rattle.piece_board.specs.declared.view.Miss.{Miss};
ghost use Rattle.piece_board.specs.Steps.{then_desk, with_miss};
ghost use Rattle.piece_board.specs.Boards.{workers_of, view, desk_view, spot_of, claimed_by};
ghost use Rattle.piece_board.specs.Boards.{IsDeskOf, IsClaimOf, IsMissOf};

use crate::board::{Board, Claim, Desk};
use crate::rule::{Claimed, Collected, Finished, Posted, PutBack, Strayed, Taken};
use crate::view::Content;
use crate::work::Work;
use limits::PLACES;
use std::marker::PhantomData;

/// The index of a place among the words and slots of the table.
fn number_of(row: u32, place: u32) -> usize
    requires row { row < MOST_WORKERS }
    requires place { place < PLACES }
    ensures { result ≡ number_of row place }
{
    (PLACES * row + place) as usize
}

impl<W: Work> Desk<W> {
    /// The desk's worker, which is also the number of its row.
    ///
    /// Memory: none.
    pub fn row(&self) -> u32
        ensures { result ≡ (desk_view self.now).row }
    {
        self.row
    }
}

impl<W: Work> Board<W> {
    /// Whether the board has place `place` of row `row`.
    fn has(&self, row: u32, place: u32) -> bool
        ensures { MatchBool result ((row < workers_of self.now) × (place < PLACES))
            (row < workers_of self.now → PLACES ≤ place) }
    {
        row < self.rows && place < PLACES
    }

    /// Records a refused claim outside the board, by a compare-exchange that always fails: all words are below 4.
    fn refuse(&self, desk: &mut Desk<W>, row: u32, place: u32)
        requires desk { IsDeskOf self.now desk.old }
        requires outside { row < workers_of self.now → PLACES ≤ place }
        ensures desk { IsDeskOf self.now desk.new }
        ensures refused { (miss : Miss) × IsMissOf self.now desk.old 0 miss
            × (view desk.new ≡ with_miss miss (after_refusal row place) (view desk.old)) }
    {
        let (row, place) = (u64::from(row), u64::from(place));
        self.table
            .shared
            .compare_exchange::<Strayed<W>>(&mut desk.seat, 0, 4 + row, place);
    }

    /// Posts a piece at a free place of the desk's own row, which becomes open.
    ///
    /// Memory: none.
    pub fn post(&self, desk: &mut Desk<W>, i: u32, input: W::In)
        requires desk { IsDeskOf self.now desk.old }
        requires place { i < PLACES }
        requires free { posted_at i (desk_view desk.old) ≡ None }
        ensures desk { IsDeskOf self.now desk.new }
        ensures posted { desk_view desk.new ≡ after_post i input (desk_view desk.old) }
        ensures event { view desk.new
            ≡ then_desk (number_of (desk_view desk.old).row i) (after_post i input) (view desk.old) }
        ensures there { posted_at i (desk_view desk.new) ≡ Some input }
    {
        let shared = &self.table.shared;
        let number = number_of(desk.row, i);
        shared.load::<Taken>(&mut desk.seat, number);
        drop(shared.exchange(&mut desk.seat, number, Content::Input(input)));
        shared.store::<Posted>(&mut desk.seat, number, 1);
    }

    /// Claims the piece at a place of any row, if it is open. A claim outside the board is refused.
    ///
    /// Memory: none.
    pub fn claim(&self, desk: &mut Desk<W>, row: u32, i: u32) -> Option<(Claim<W>, W::In)>
        requires desk { IsDeskOf self.now desk.old }
        ensures desk { IsDeskOf self.now desk.new }
        ensures some { IfSome result (λ r.
            desk_view desk.new ≡ after_claim row i r.1 (desk_view desk.old)) }
        ensures event { IfSome result (λ r.
            view desk.new ≡ then_desk (number_of row i) (after_claim row i r.1) (view desk.old)) }
        ensures claim { IfSome result (λ r. IsClaimOf self.now r.0 × (spot_of r.0 ≡ (row, i))
            × (claimed_by r.0 desk.new ≡ Some r.1)) }
        ensures none { IfNone result
            (desk_view desk.new ≡ after_refusal row i (desk_view desk.old)) }
        ensures missed { IfNone result ((miss : Miss)
            × ((row < workers_of self.now → i < PLACES → (miss.found ≢ 1)
            × IsMissOf self.now desk.old (number_of row i) miss)
            × ((row < workers_of self.now → PLACES ≤ i) → IsMissOf self.now desk.old 0 miss))
            × (view desk.new ≡ with_miss miss (after_refusal row i) (view desk.old))) }
    {
        if !self.has(row, i) {
            self.refuse(desk, row, i);
            return None;
        }
        let shared = &self.table.shared;
        let number = number_of(row, i);
        if shared.compare_exchange::<Claimed<W>>(&mut desk.seat, number, 1, 2) != 1 {
            return None;
        }
        let content = shared.exchange(&mut desk.seat, number, Content::Nothing);
        shared.load::<PutBack>(&mut desk.seat, number);
        let Content::Input(input) = content else {
            unreachable!()
        };
        let claim = Claim {
            row,
            place: i,
            work: PhantomData,
        };
        Some((claim, input))
    }

    /// Stores the result of a claimed piece at its place, which becomes full.
    ///
    /// Memory: none.
    pub fn finish(&self, desk: &mut Desk<W>, claim: Claim<W>, out: W::Out)
        requires desk { IsDeskOf self.now desk.old }
        requires claim { IsClaimOf self.now claim }
        requires meets { IsSomeAnd (claimed_by claim desk.old) (λ x. W.meets x out) }
        ensures desk { IsDeskOf self.now desk.new }
        ensures finished { desk_view desk.new
            ≡ after_finish (spot_of claim).0 (spot_of claim).1 (desk_view desk.old) }
        ensures event { view desk.new ≡ then_desk (number_of (spot_of claim).0 (spot_of claim).1)
            (after_finish (spot_of claim).0 (spot_of claim).1) (view desk.old) }
    {
        let shared = &self.table.shared;
        let number = number_of(claim.row, claim.place);
        shared.load::<Taken>(&mut desk.seat, number);
        drop(shared.exchange(&mut desk.seat, number, Content::Output(out)));
        shared.store::<Finished>(&mut desk.seat, number, 3);
    }

    /// Takes the result at a place of the desk's own row, if the place is full. The result meets what this desk posted
    /// there last, and the place becomes free.
    ///
    /// Memory: none.
    pub fn collect(&self, desk: &mut Desk<W>, i: u32) -> Option<W::Out>
        requires desk { IsDeskOf self.now desk.old }
        requires place { i < PLACES }
        ensures desk { IsDeskOf self.now desk.new }
        ensures some { IfSome result (λ _.
            desk_view desk.new ≡ after_collect i (desk_view desk.old)) }
        ensures event { IfSome result (λ _. view desk.new
            ≡ then_desk (number_of (desk_view desk.old).row i) (after_collect i) (view desk.old)) }
        ensures meets { IfSome result (λ out.
            IsSomeAnd (posted_at i (desk_view desk.old)) (λ x. W.meets x out)) }
        ensures free { IfSome result (λ _. posted_at i (desk_view desk.new) ≡ None) }
        ensures none { IfNone result
            (desk_view desk.new ≡ after_empty_collect (desk_view desk.old)) }
        ensures missed { IfNone result ((miss : Miss) × (miss.found ≢ 3)
            × IsMissOf self.now desk.old (number_of (desk_view desk.old).row i) miss
            × (view desk.new ≡ with_miss miss after_empty_collect (view desk.old))) }
    {
        let shared = &self.table.shared;
        let number = number_of(desk.row, i);
        if shared.compare_exchange::<Collected<W>>(&mut desk.seat, number, 3, 0) != 3 {
            return None;
        }
        let content = shared.exchange(&mut desk.seat, number, Content::Nothing);
        shared.load::<PutBack>(&mut desk.seat, number);
        let Content::Output(out) = content else {
            unreachable!()
        };
        Some(out)
    }
}
