//! The rule's laws: those of the core that the rule rests on, and what holds of every table that meets the rule, whatever
//! the leaves of work compute.
ghost use Rattle.std.specs.Prelude.{◌≡◌, ◌<◌, ◌≤◌, ◌*◌, ℕ, List, [], Some, length, slice_index};
ghost use Rattle.std.specs.List.{AllByRecursion};
ghost use mathlib.Core.Option.{some};
ghost use lib.ListN.{get_elem?};
ghost use Rattle.limits.specs.declared.TheConstants.{MOST_LEAVES};
ghost use Rattle.sp_order.specs.Jobs.{job_tree};
ghost use Rattle.sp_order.specs.Precedence.{leaves};
ghost use Rattle.core_model.specs.declared.setting.Setting.{Setting};
ghost use Rattle.table_rule.specs.declared.view.View.{View};
ghost use Rattle.table_rule.specs.Laws.{IsSound, Laws};
ghost use Rattle.table_rule.specs.Shows.{TableState, ShownWith, job_of, IsPrefix, AreInOrder, IsTrueIn, IsBeforeSet};
ghost use Rattle.table_rule.specs.OneState.{AreOne};
ghost use Rattle.table_rule.specs.Words.{stop_at};
ghost use Rattle.core_model.specs.Entries.{StandsAt};
ghost use Rattle.core_model.specs.Settings.{job_with};
ghost use Rattle.core_model.specs.LeafSources.{HasSources};
ghost use Rattle.core_model.specs.Operations.{value_under};
ghost use Rattle.core_model.specs.State.{opening_state};
ghost use Rattle.core_model.specs.Words.{Entry, LeafNode};
ghost use Rattle.table_rule.specs.CoreWords.{Started};

use core_model::laws::book::{
    calls_have_room, entries_are_found_at_their_places, operations_stay,
    publish_adds_the_taken_call, receipt_is_of_the_own_entry, started_leaf_has_its_source,
};
use core_model::laws::invariant::{
    event_keeps_parts, mark_before_arrival_is_below_two, moves_tell_sides, opening_has_parts,
    tick_is_at_most_two_a_node,
};
use core_model::laws::report::done_root_ends_all;
use core_model::laws::wait::{event_keeps_waits, trapped_waits_from_now};
use sp_order::laws::{plan_has_root, plan_has_sides, plan_stands_for_tree};

/// The core's laws, instantiated for a table's job.
pub fn laws_hold()
    ensures { (work : ℕ → ℕ) (key : Setting) → (job_of key).plan.count < 2 * MOST_LEAVES
        → length key.job.acts ≡ leaves (job_tree key.job)
        → length key.job.acts ≤ MOST_LEAVES
        → HasSources (job_with work key)
        → Laws (job_with work key) }
{
    event_keeps_parts();
    calls_have_room();
    publish_adds_the_taken_call();
    receipt_is_of_the_own_entry();
    operations_stay();
    entries_are_found_at_their_places();
    started_leaf_has_its_source();
    tick_is_at_most_two_a_node();
    mark_before_arrival_is_below_two();
    event_keeps_waits();
    trapped_waits_from_now();
    plan_stands_for_tree();
    plan_has_root();
    plan_has_sides();
    moves_tell_sides();
    opening_has_parts();
    done_root_ends_all();
}

/// A table shows at most one state: any two states that it shows agree on everything that `AreOne` lists.
pub fn at_most_one_state_is_shown()
    ensures { (work : ℕ → ℕ) (key : Setting) → IsSound key
        → (t : TableState) (one two : ShownWith work key t)
        → AreOne (job_with work key) one.state two.state }
{
    laws_hold();
}

/// An entry keeps its batch and place when a book grows. So a receipt's entry stands there in every book that extends
/// the one the pass has seen.
pub fn entries_stay_where_they_stand()
    ensures { (front book : List (List Entry)) (batch place : ℕ) (entry : Entry)
        → IsPrefix front book
        → StandsAt front batch place entry
        → StandsAt book batch place entry }
{}

/// A number that `source_value` told a pass is the value of its source: the pass has started a leaf that has a source,
/// and the number is the value that the source has under the book.
pub fn told_values_are_those_of_sources()
    ensures { (work : ℕ → ℕ) (key : Setting) (t : TableState) (shown : ShownWith work key t) (id : ℕ) (v : View) (value : ℕ)
        → get_elem? t.views id ≡ some v
        → v.own.worker < v.to
        → v.own.told ≡ Some value
        → (node : ℕ) × (start : ℕ) × (leaf : ℕ) × (source : ℕ)
        × (v.own.task ≡ Started node start)
        × ((job_with work key).plan.kind node ≡ Some (LeafNode leaf))
        × ((job_with work key).source leaf ≡ Some source)
        × (value_under (job_with work key) shown.state.book source ≡ Some value) }
{}

/// A table on which every worker's seat has no events shows the opening state. So a new table does: no leaf has run
/// on it.
pub fn tables_without_events_show_the_opening_state()
    ensures { (work : ℕ → ℕ) (key : Setting) (t : TableState) (shown : ShownWith work key t)
        → ((w : ℕ) → w < key.workers → (id : ℕ) × (v : View) × (get_elem? t.views id ≡ some v)
        × (v.own.worker ≤ w) × (w < v.to) × (v.own.events ≡ []))
        → shown.state ≡ opening_state }
{}

/// Each miss that a pass has noted was true at its moment: a front of the trace, as long as the moment says and with as
/// many events of the pass as it says, reaches a state in which the word has the number found. The moments of a pass do
/// not fall.
pub fn misses_are_true_at_their_moments()
    ensures { (work : ℕ → ℕ) (key : Setting) (t : TableState) (shown : ShownWith work key t) (id : ℕ) (v : View)
        → get_elem? t.views id ≡ some v
        → v.own.worker < v.to
        → AllByRecursion (IsTrueIn (job_with work key) v.own.worker shown.trace) v.misses × AreInOrder v.misses }
{}

/// The stop word is 0 until a pass sets it, and 1 from then on. A look finds it set only if some pass has set it, and
/// not set only if it found 0, not after the first set by any pass.
pub fn the_stop_word_is_set_by_a_pass()
    ensures found { (work : ℕ → ℕ) (key : Setting) (t : TableState) (shown : ShownWith work key t) (id : ℕ) (v : View)
        → get_elem? t.views id ≡ some v
        → 0 < v.own.stops_found
        → (by : ℕ) × (u : View) × (get_elem? t.views by ≡ some u) × (0 < u.own.stops) }
    ensures stays { (work : ℕ → ℕ) (key : Setting) (t : TableState) (shown : ShownWith work key t) (id : ℕ) (v : View)
        → get_elem? t.views id ≡ some v
        → 0 < v.own.stops
        → slice_index t.words (stop_at key.workers) ≡ 1 }
    ensures unset { (work : ℕ → ℕ) (key : Setting) (t : TableState) (shown : ShownWith work key t)
        → ((w : ℕ) → w < key.workers → (id : ℕ) × (v : View) × (get_elem? t.views id ≡ some v)
        × (v.own.worker ≤ w) × (w < v.to) × (v.own.stops ≡ 0))
        → slice_index t.words (stop_at key.workers) ≡ 0 }
    ensures before { (work : ℕ → ℕ) (key : Setting) (t : TableState) (shown : ShownWith work key t) (id by : ℕ) (v u : View)
        → get_elem? t.views id ≡ some v
        → v.own.worker < v.to
        → get_elem? t.views by ≡ some u
        → AllByRecursion (IsBeforeSet (stop_at key.workers) u.stopped_at) v.misses }
{}
