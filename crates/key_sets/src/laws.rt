//! Laws of sets and of groups; each is the contract of an empty function.
ghost use Rattle.std.specs.Prelude.{◌≡◌, ℕ, ◌<◌, ◌≤◌, true, List, [], length, slice_index_or};
ghost use Rattle.key_sets.specs.Keys.{StrictlyAscends, AllBelow, has};
ghost use Rattle.key_sets.specs.Splits.{IsSplit};
ghost use Rattle.key_sets.specs.Groups.{AreGroups, AreInRanges, AreStarts, starts_of, group_of, group_size, group_count};

/// The number of groups is `group_count` of the number of keys, and at most 16. If there are keys, then any starts that
/// meet `AreStarts` are the starts of some groups of theirs.
pub fn groups_are_counted()
    ensures count { (keys : List ℕ) (groups : List (List ℕ)) → AreGroups (group_size (length keys)) keys groups
        → length groups ≡ group_count (length keys) }
    ensures few { (keys : List ℕ) (groups : List (List ℕ)) → AreGroups (group_size (length keys)) keys groups
        → length groups ≤ 16 }
    ensures starts { (keys starts : List ℕ) → 0 < length keys → AreStarts (group_size (length keys)) keys starts
        → (groups : List (List ℕ)) × AreGroups (group_size (length keys)) keys groups × (starts_of groups ≡ starts) }
{}

/// Each key of an ascending list is in the group with the index `group_of`, which is at most the number of starts. All
/// keys of a group lie in its range.
pub fn groups_have_their_keys()
    ensures each { (size key : ℕ) (keys : List ℕ) (groups : List (List ℕ)) → 0 < size → StrictlyAscends keys
        → AreGroups size keys groups → has key keys ≡ true
        → has key (slice_index_or groups (group_of key (starts_of groups)) []) ≡ true }
    ensures below { (key : ℕ) (starts : List ℕ) → group_of key starts ≤ length starts }
    ensures ranges { (size : ℕ) (keys : List ℕ) (groups : List (List ℕ)) → 0 < size → StrictlyAscends keys
        → AreGroups size keys groups → AreInRanges 0 groups }
{}

/// Each key of the low side of a cut is below each key of the high side, so the two can be concatenated.
#[tactic(auto, using(crate::proofs::KeyLemmas::Sides::sides_apart))]
pub fn sides_of_a_cut_are_apart()
    ensures { (key : ℕ) (whole low high : List ℕ) → IsSplit key whole low high → AllBelow low high }
{}
