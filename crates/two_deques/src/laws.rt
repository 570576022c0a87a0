//! The consequences of the rule of a deque, each stated as the contract of an empty function.
ghost use Rattle.std.specs.Prelude.{◌≡◌, ◌+◌, ℕ, List, [], ◌∷◌, ◌++◌, true, false, slice_set};
ghost use Rattle.std.specs.List.{sum_by};
ghost use mathlib.Core.Option.{some};
ghost use lib.ListN.{get_elem?};
ghost use Rattle.two_deques.specs.declared.rule.Part.{Part as PartOf};
ghost use Rattle.two_deques.specs.Rule.{owner_part, thief_part, stolen_by, AreStolen};
ghost use Rattle.two_deques.specs.Rule.{ObeysRule, FoundAtMost};

use crate::{DeckPair, Decks, Hand, Stealers};

fn can_be_sent<T: Send>() {}

fn can_be_shared<T: Sync>() {}

/// `Hand` is `Send` and `Decks` is `Sync`: a hand can move to its worker's thread, and all threads share the deques.
/// `DeckPair` and `Stealers` are `Send`: any thread can make a worker's deques, and any thread can give them back.
pub fn hands_go_to_threads() {
    can_be_sent::<Hand>();
    can_be_shared::<Decks>();
    can_be_sent::<DeckPair>();
    can_be_sent::<Stealers>();
}

/// The rule holds for a new deque, and still holds when a thief that has stolen nothing joins.
#[tactic(auto, using(crate::proofs::RuleLemmas::Steps::begins, crate::proofs::RuleLemmas::Steps::admits))]
pub fn a_deque_begins_with_the_rule<T>()
    ensures new { ObeysRule {T = T} [] (owner_part 0 [] ∷ []) }
    ensures thief { (items : List T) (parts : List (PartOf T)) → ObeysRule items parts
        → ObeysRule items (parts ++ thief_part [] ∷ []) }
{}

/// Appending a task to the newest end of both the deque and its owner's list keeps the rule.
#[tactic(auto, using(crate::proofs::RuleLemmas::Steps::push_kept))]
pub fn a_push_keeps_the_rule<T>()
    ensures { (items : List T) (parts : List (PartOf T)) (port : ℕ) (mine : PartOf T) (task : T)
        → ObeysRule items parts → get_elem? parts port ≡ some mine → mine.owns ≡ true
        → ObeysRule (items ++ task ∷ []) (slice_set parts port
        (record mine { pushes = mine.pushes + 1; tasks = mine.tasks ++ task ∷ [] })) }
{}

/// The newest task of a deque is the last of its owner's list; removing it from both keeps the rule.
#[tactic(auto, using(crate::proofs::RuleLemmas::Steps::pop_kept))]
pub fn a_pop_takes_the_newest<T>()
    ensures { (items : List T) (parts : List (PartOf T)) (port : ℕ) (mine : PartOf T) (task : T)
        → ObeysRule (items ++ task ∷ []) parts → get_elem? parts port ≡ some mine → mine.owns ≡ true
        → (rest : List T) × (mine.tasks ≡ rest ++ task ∷ [])
        × ObeysRule items (slice_set parts port (record mine { tasks = rest })) }
{}

/// Moving the oldest task of a deque to the end of a thief's list keeps the rule.
#[tactic(auto, using(crate::proofs::RuleLemmas::Steps::steal_kept))]
pub fn a_steal_takes_the_oldest<T>()
    ensures { (items : List T) (parts : List (PartOf T)) (port : ℕ) (thief : PartOf T) (task : T)
        → ObeysRule (task ∷ items) parts → get_elem? parts port ≡ some thief → thief.owns ≡ false
        → ObeysRule items (slice_set parts port (record thief { tasks = thief.tasks ++ task ∷ [] })) }
{}

/// Each task occurs in the owner's list as often as in the deque and all thieves' lists together: for any `weight`,
/// the sums agree.
#[tactic(auto, using(crate::proofs::LawLemmas::each_is_somewhere))]
pub fn no_task_is_lost_or_doubled<T>()
    ensures { (items : List T) (parts : List (PartOf T)) (port : ℕ) (mine : PartOf T) (weight : T → ℕ)
        → ObeysRule items parts → get_elem? parts port ≡ some mine → mine.owns ≡ true
        → sum_by weight mine.tasks
        ≡ sum_by (λ part. sum_by weight (stolen_by part)) parts + sum_by weight items }
{}

/// If a deque was empty while its owner had this list, all tasks of the list were stolen.
#[tactic(auto, using(crate::proofs::LawLemmas::all_are_stolen))]
pub fn all_tasks_of_an_empty_deque_are_stolen<T>()
    ensures { (own : List T) → FoundAtMost 0 true own → (parts : List (PartOf T)) × AreStolen own parts }
{}
