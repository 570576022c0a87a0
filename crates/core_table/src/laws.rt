//! The table's laws: each call is one event of the core or a stutter, and threads can share a table.
ghost use Rattle.std.specs.Prelude.{ℕ, List};
ghost use Rattle.core_model.specs.declared.setting.Setting.{Setting};
ghost use Rattle.table_rule.specs.declared.slot.Slot.{Slot};
ghost use Rattle.table_rule.specs.declared.view.View.{View};
ghost use Rattle.table_rule.specs.Laws.{IsSound};
ghost use Rattle.core_table.specs.Calls.{IsViewOf, EachCallRefines, MakingStutters};

pub use crate::sending::{is_sent, is_shared, tables_go_to_threads};
use table_rule::laws::laws_hold;

/// The refinement, at the step of each call on any table that meets the rule, whatever the leaves of work compute. A
/// `take` is an event even if it takes no call. A refused claim, win or leave, a look at the root, the batch count, the
/// stop word or the value of a source, and `stop` are stutters. So are the steps that make a pass: its split off the
/// first seat, and its enrolment.
pub fn each_call_is_its_event()
    ensures calls { (work : ℕ → ℕ) (key : Setting) → IsSound key
        → (slots id k : ℕ) (v : View) (xs : List (ℕ × Slot)) → IsViewOf key k v
        → EachCallRefines work key slots id k v xs }
    ensures making { (work : ℕ → ℕ) (key : Setting) (slots id : ℕ) (v : View) (xs : List (ℕ × Slot))
        → MakingStutters work key slots id v xs }
{
    laws_hold();
}
