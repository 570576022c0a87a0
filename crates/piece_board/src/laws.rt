//! The consequences of the rule of a board, each stated as the contract of an empty function.
ghost use Rattle.std.specs.Prelude.{◌≡◌, ◌≢◌, ◌+◌, ◌<◌, ◌≤◌, ℕ, length, slice_index, Some};
ghost use Rattle.std.specs.List.{sum_by, AllByRecursion};
ghost use mathlib.Core.Option.{some};
ghost use lib.ListN.{get_elem?};
ghost use Rattle.atomic_table.specs.Table.{State};
ghost use Rattle.piece_board.specs.declared.view.Content.{Content as ContentOf};
ghost use Rattle.piece_board.specs.declared.view.View.{View as ViewOf};
ghost use Rattle.piece_board.specs.Entries.{entry_at};
ghost use Rattle.piece_board.specs.Trace.{IsTrueIn, AreInOrder};
ghost use Rattle.piece_board.specs.Rule.{claims_at, posts_at, ObeysRule};

use crate::{Board, Claim, Desk, Work};

fn can_be_sent<T: Send>() {}

fn can_be_shared<T: Sync>() {}

/// `Desk` is `Send` and `Board` is `Sync`: a desk can move to its worker's thread, and all threads share the board.
pub fn desks_go_to_threads<W: Work>() {
    can_be_sent::<Desk<W>>();
    can_be_shared::<Board<W>>();
}

/// At each place, all seats together made as many claims as posts, or one claim less if the place is open: no post is
/// claimed twice, and none is skipped.
#[tactic(auto, using(crate::proofs::LawLemmas::all_claimed, crate::proofs::LawLemmas::all_but_one_claimed))]
pub fn each_post_is_claimed_once<W: Work>()
    ensures all { (s : State (ContentOf W.In W.Out) (ViewOf W.In)) (k : ℕ) → ObeysRule W.meets s
        → k < length s.homes → slice_index s.words k ≢ 1
        → sum_by (claims_at k) s.views ≡ sum_by (posts_at k) s.views }
    ensures open { (s : State (ContentOf W.In W.Out) (ViewOf W.In)) (k : ℕ) → ObeysRule W.meets s
        → k < length s.homes → slice_index s.words k ≡ 1
        → sum_by (claims_at k) s.views + 1 ≡ sum_by (posts_at k) s.views }
{}

/// A place that a seat has claimed and not finished is so claimed by this seat alone, and is not open.
#[tactic(auto, using(crate::proofs::LawLemmas::claimed_by_one))]
pub fn a_claim_is_one_desks_alone<W: Work>()
    ensures { (s : State (ContentOf W.In W.Out) (ViewOf W.In)) (seat other k : ℕ) (v w : ViewOf W.In) (x y : W.In)
        → ObeysRule W.meets s → get_elem? s.views seat ≡ some v → get_elem? s.views other ≡ some w
        → entry_at k v.desk.claims ≡ Some x → entry_at k w.desk.claims ≡ Some y
        → (seat ≡ other) × (slice_index s.words k ≢ 1) }
{}

/// Each miss that a seat has noted was true at its moment: a front of the trace, as long as the moment says and with as
/// many events of the seat as it says, leads to the number found in the word. The moments of a seat do not fall.
#[tactic(auto, using(crate::proofs::LawLemmas::missed_truly))]
pub fn misses_are_true_at_their_moments<W: Work>()
    ensures { (s : State (ContentOf W.In W.Out) (ViewOf W.In)) (obeys : ObeysRule W.meets s) (seat : ℕ) (v : ViewOf W.In)
        → get_elem? s.views seat ≡ some v
        → AllByRecursion (IsTrueIn seat obeys.traced.trace) v.misses × AreInOrder v.misses }
{}
