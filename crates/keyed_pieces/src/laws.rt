//! Laws of operations with keys that are served by ranges; each is the contract of an empty function.
ghost use Rattle.std.specs.Prelude.{◌≡◌, ◌==◌, ◌+◌, ◌<◌, ◌≤◌, ℕ, List, ◌++◌, ◌∷◌, filter, length, map, slice_index_or, []};
ghost use Rattle.std.specs.List.{AllByRecursion};
ghost use Rattle.key_sets.specs.Groups.{group_of};
ghost use Rattle.keyed_pieces.specs.Dealing.{dealt, of_group, HaveReplies};
ghost use Rattle.keyed_pieces.specs.Keyed.{AreKeyed, AscendsBy, after_each, replies_to_each};
ghost use Rattle.keyed_pieces.specs.Ranges.{below, from, ranges, side_by_side, after_by_range, replies_by_range, merged};

/// There is one range more than there are starts. Each range has the entries of its group, in their order, and the
/// ranges of ascending entries concatenate to these. If the starts `lows` are below `start`, the ranges before `start`
/// and those from it on can be cut separately.
pub fn ranges_are_the_groups<E>()
    ensures count { (at : E → ℕ) (starts : List ℕ) (entries : List E)
        → length (ranges at starts entries) ≡ length starts + 1 }
    ensures each { (at : E → ℕ) (starts : List ℕ) (entries : List E) (group : ℕ)
        → slice_index_or (ranges at starts entries) group [] ≡ filter (λ e. group_of (at e) starts == group) entries }
    ensures all { (at : E → ℕ) (starts : List ℕ) (entries : List E) → AscendsBy at entries
        → side_by_side (ranges at starts entries) ≡ entries }
    ensures apart { (at : E → ℕ) (lows : List ℕ) (start : ℕ) (highs : List ℕ) (entries : List E)
        → AllByRecursion (λ low. low < start) lows
        → ranges at (lows ++ start ∷ highs) entries ≡ ranges at lows (below at start entries) ++ ranges at highs (from at start entries) }
{}

/// Operations that touch only what is at their own key may be served range by range, whatever order they come in: the
/// entries of the ranges concatenate to what one operation after another leaves, and the merged replies are its
/// replies.
pub fn operations_may_be_served_by_range<E, O, R>()
    ensures after { (at : E → ℕ) (key : O → ℕ) (after : List E → O → List E) (reply : List E → O → R)
        → AreKeyed at key after reply
        → (starts : List ℕ) (entries : List E) (operations : List O) → AscendsBy at entries
        → side_by_side (after_by_range after (ranges at starts entries) (ranges key starts operations))
        ≡ after_each after entries operations }
    ensures replies { (at : E → ℕ) (key : O → ℕ) (after : List E → O → List E) (reply : List E → O → R)
        → AreKeyed at key after reply
        → (none : R) (starts : List ℕ) (entries : List E) (operations : List O) → AscendsBy at entries
        → merged none (map (λ op. group_of (key op) starts) operations) (replies_by_range after reply (ranges at starts entries) (ranges key starts operations))
        ≡ replies_to_each after reply entries operations }
{}

/// Questions, which change nothing, may be answered range by range: the merged answers of the ranges are the answers to
/// all questions in their order.
pub fn questions_may_be_answered_by_range<O, R>()
    ensures { (key : O → ℕ) (answer : O → R) (none : R) (starts : List ℕ) (questions : List O)
        → merged none (map (λ op. group_of (key op) starts) questions) (map (map answer) (ranges key starts questions))
        ≡ map answer questions }
{}

/// Operations dealt to the groups of their keys are the operations of the ranges. If each group has at least as many
/// replies as items, then each item finds a reply.
pub fn dealing_is_by_range<O, R>()
    ensures dealt { (key : O → ℕ) (starts : List ℕ) (operations : List O)
        → dealt (length starts + 1) (map (λ op. group_of (key op) starts) operations) operations ≡ ranges key starts operations }
    ensures replied { (groups : List ℕ) (replies : List (List R)) → AllByRecursion (λ group. group < length replies) groups
        → ((group : ℕ) → group < length replies → length (of_group group groups groups) ≤ length (slice_index_or replies group []))
        → HaveReplies groups replies }
{}

/// If each group has the replies that dealing gives it, then merging these gives all replies in their order, and each
/// item finds a reply.
pub fn merging_undoes_dealing<R>()
    ensures merged { (none : R) (groups : List ℕ) (replies : List R) (lists : List (List R)) → length groups ≡ length replies
        → AllByRecursion (λ group. group < length lists) groups
        → ((group : ℕ) → group < length lists → slice_index_or lists group [] ≡ of_group group groups replies)
        → merged none groups lists ≡ replies }
    ensures replied { (groups : List ℕ) (replies : List R) (lists : List (List R)) → length groups ≡ length replies
        → AllByRecursion (λ group. group < length lists) groups
        → ((group : ℕ) → group < length lists → slice_index_or lists group [] ≡ of_group group groups replies)
        → HaveReplies groups lists }
{}

/// The replies of a range to its own operations are those that they get where all operations are served on all entries.
pub fn each_range_replies_as_all_do<E, O, R>()
    ensures { (at : E → ℕ) (key : O → ℕ) (after : List E → O → List E) (reply : List E → O → R)
        → AreKeyed at key after reply
        → (starts : List ℕ) (entries : List E) (operations : List O) → AscendsBy at entries
        → (group : ℕ) → group ≤ length starts
        → slice_index_or (replies_by_range after reply (ranges at starts entries) (ranges key starts operations)) group []
        ≡ of_group group (map (λ op. group_of (key op) starts) operations) (replies_to_each after reply entries operations) }
{}

/// If the group of each question answers it as `answer` does, then the answers of each group to its own questions are
/// those of `answer`.
pub fn each_group_answers_its_questions<O, R>()
    ensures { (group : O → ℕ) (answer : O → R) (own : ℕ → O → R) (questions : List O)
        → AllByRecursion (λ op. own (group op) op ≡ answer op) questions
        → (number : ℕ) → map (own number) (of_group number (map group questions) questions)
        ≡ of_group number (map group questions) (map answer questions) }
{}
