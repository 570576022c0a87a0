//! The laws of the serial objects, each stated as the contract of an empty function.
ghost use Rattle.std.specs.Char.{is_ascii_lowercase};
ghost use Rattle.std.specs.List.{AllByRecursion, list_all};
ghost use Rattle.std.specs.Prelude.{[], ◌≡◌, ◌↔◌, ℕ, ◌+◌, ◌<◌, Bool, if◌then◌else◌, IsTrue, not, ◌&&◌, ◌||◌, ◌==◌, ◌++◌, nat_lt, filter, length, List, Some};
ghost use Rattle.seq_objects.specs.declared.call.Call.{Call};
ghost use Rattle.seq_objects.specs.declared.op.Op.{Op};
ghost use Rattle.seq_objects.specs.declared.reply.Reply.{Reply};
ghost use Rattle.seq_objects.specs.declared.verb.Verb.{Verb};
ghost use Rattle.seq_objects.specs.declared.verb.VerbWord.{VerbWord};
ghost use Rattle.seq_objects.specs.Verbs.{Kind, kind_by_text, kind_of_verb, kind_text, takes_argument, verb_by, word_by_text, word_of_verb, word_text};
ghost use Rattle.seq_objects.specs.Parts.{argument_of, op_of, verb_of};
ghost use Rattle.seq_objects.specs.Objects.{Objects, opening, after, has, with_key, without_key, least_above, with_item, least, without_least, number_of};
ghost use Rattle.seq_objects.specs.BatchOrder.{class_of};
ghost use Rattle.seq_objects.specs.Batches.{AreInBatchOrder, AreOneBatch, AreOf, calls_of, calls_at};
ghost use Rattle.seq_objects.specs.Stores.{Store, opening_store, store_after_all, store_replies, replies_at};
ghost use Rattle.seq_objects.specs.Serial.{after_all, replies_to_all, alone, with_kind, replies_of, after_by_kind};
ghost use Rattle.seq_objects.specs.Orders.{StrictlyAscends, Ascends, AreInOrder, IsLeastAbove, copies, one_if, IsLeast};

use crate::act::Act;
use crate::op::Op;
use crate::reply::Reply;

/// An operation is put together from its parts, and has the parts that it is put together from; a verb without argument
/// leaves the argument out. Two operations are one where their parts are.
pub fn operations_are_their_parts()
    ensures whole { (op : Op) → op_of (verb_of op) (number_of op) (argument_of op) ≡ op }
    ensures verb { (verb : Verb) (number argument : ℕ) → verb_of (op_of verb number argument) ≡ verb }
    ensures number { (verb : Verb) (number argument : ℕ) → number_of (op_of verb number argument) ≡ number }
    ensures argument { (verb : Verb) (number argument : ℕ) → argument_of (op_of verb number argument) ≡ (if takes_argument verb then argument else 0) }
    ensures same { (a b : Op) → verb_of a ≡ verb_of b → number_of a ≡ number_of b → argument_of a ≡ argument_of b → a ≡ b }
{}

/// Each verb is found by the kind of its objects and its word, and what is found has this kind and this word.
pub fn verbs_are_by_kind_and_word()
    ensures found { (verb : Verb) → verb_by (kind_of_verb verb) (word_of_verb verb) ≡ Some verb }
    ensures has { (kind : Kind) (word : VerbWord) (verb : Verb) → verb_by kind word ≡ Some verb → (kind_of_verb verb ≡ kind) × (word_of_verb verb ≡ word) }
{}

/// Each kind and each word is found by its text, and what is found has this text. A text has at least one byte, and each
/// is `a` to `z`.
pub fn texts_are_of_one()
    ensures kind { (kind : Kind) → kind_by_text (kind_text kind) ≡ Some kind }
    ensures kind_has { (text : List ℕ) (kind : Kind) → kind_by_text text ≡ Some kind → kind_text kind ≡ text }
    ensures kind_letters { (kind : Kind) → (0 < length (kind_text kind)) × IsTrue (list_all is_ascii_lowercase (kind_text kind)) }
    ensures word { (word : VerbWord) → word_by_text (word_text word) ≡ Some word }
    ensures word_has { (text : List ℕ) (word : VerbWord) → word_by_text text ≡ Some word → word_text word ≡ text }
    ensures word_letters { (word : VerbWord) → (0 < length (word_text word)) × IsTrue (list_all is_ascii_lowercase (word_text word)) }
{}

/// Every operation keeps the set strictly ascending and the bag ascending.
pub fn objects_stay_in_order()
    ensures opening { AreInOrder opening }
    ensures after { (objects : Objects) (op : Op) → AreInOrder objects → AreInOrder (after objects op) }
{}

/// Insert and remove change the membership of their key alone, and the next key is the least strictly greater one.
pub fn set_has_its_keys()
    ensures insert { (key q : ℕ) (set : List ℕ) → has q (with_key key set) ≡ ((q == key) || has q set) }
    ensures remove { (key q : ℕ) (set : List ℕ) → StrictlyAscends set → has q (without_key key set) ≡ (not (q == key) && has q set) }
    ensures next { (n : ℕ) (set : List ℕ) → StrictlyAscends set → IsLeastAbove n set (least_above n set) }
{}

/// An insert adds one copy of its item, a take removes one copy of the least number, and no other count changes.
pub fn bag_counts_its_copies()
    ensures insert { (item n : ℕ) (bag : List ℕ) → copies n (with_item item bag) ≡ one_if (n == item) + copies n bag }
    ensures take { (item n : ℕ) (bag : List ℕ) → least bag ≡ Some item → copies n bag ≡ one_if (n == item) + copies n (without_least bag) }
    ensures least { (bag : List ℕ) → Ascends bag → IsLeast bag (least bag) }
{}

/// In batch order, the calls of all lower classes stand before the others: pushes before pops, queries of trees
/// before their updates, inserts into queues before takes.
pub fn lower_classes_come_first()
    ensures { (class : ℕ) (calls : List Call) → AreInBatchOrder calls → calls ≡ filter (λ call. nat_lt (class_of call.op) class) calls ++ filter (λ call. not (nat_lt (class_of call.op) class)) calls }
{}

/// Any non-empty selection of a batch's calls, in their order, is a batch too; `calls_of` selects those of a kind, and
/// `calls_at` those of a number.
pub fn some_calls_of_a_batch_are_a_batch()
    ensures batch { (passes : Call → Bool) (calls : List Call) → AreOneBatch calls → 0 < length (filter passes calls) → AreOneBatch (filter passes calls) }
    ensures of { (kind : Kind) (calls : List Call) → AreOf kind (calls_of kind calls) }
    ensures at { (number : ℕ) (calls : List Call) → AllByRecursion (λ call. number_of call.op ≡ number) (calls_at number calls) }
{}

/// Among the objects of one number, calls of one kind leave the other objects unchanged, and their replies do not
/// depend on these.
pub fn kinds_are_apart()
    ensures replies { (kind : Kind) (objects : Objects) (calls : List Call) → AreOf kind calls → replies_to_all objects calls ≡ replies_to_all (alone kind objects) calls }
    ensures content { (kind : Kind) (objects : Objects) (calls : List Call) → AreOf kind calls → after_all objects calls ≡ with_kind kind objects (after_all (alone kind objects) calls) }
{}

/// Calls of one number can be split by kind, and each kind can serve its own calls alone. The replies to all calls are
/// the only list that has each kind's replies at the places of its calls.
pub fn each_kind_serves_its_own_calls()
    ensures replies { (kind : Kind) (objects : Objects) (calls : List Call) → replies_of kind calls (replies_to_all objects calls) ≡ replies_to_all (alone kind objects) (calls_of kind calls) }
    ensures one { (calls : List Call) (replies others : List Reply) → length replies ≡ length calls → length others ≡ length calls → ((kind : Kind) → replies_of kind calls replies ≡ replies_of kind calls others) → replies ≡ others }
    ensures content { (objects : Objects) (calls : List Call) → after_all objects calls ≡ after_by_kind objects calls }
{}

/// Calls can be split by the numbers of their objects, and the objects of each number can serve its calls alone. The
/// replies to all calls are the only list that has each number's replies at the places of its calls.
pub fn each_number_serves_its_own_calls()
    ensures replies { (number : ℕ) (store : Store) (calls : List Call) → replies_at number calls (store_replies store calls) ≡ replies_to_all (store number) (calls_at number calls) }
    ensures one { (calls : List Call) (replies others : List Reply) → length replies ≡ length calls → length others ≡ length calls → ((number : ℕ) → replies_at number calls replies ≡ replies_at number calls others) → replies ≡ others }
    ensures content { (number : ℕ) (store : Store) (calls : List Call) → store_after_all store calls number ≡ after_all (store number) (calls_at number calls) }
{}

/// Calls leave the objects of all other numbers as they are, so all but finitely many are as at the opening.
pub fn most_numbers_are_opening()
    ensures others { (number : ℕ) (store : Store) (calls : List Call) → calls_at number calls ≡ [] → store_after_all store calls number ≡ store number }
    ensures finite { (calls : List Call) → (most : ℕ) × ((number : ℕ) → most < number → store_after_all opening_store calls number ≡ opening) }
{}

/// `==` on operations, replies and acts decides mathematical equality.
pub fn equal_values_are_the_same()
    ensures op { (a b : Op) → IsTrue (⟦<Op as PartialEq>⟧.eq a b) ↔ (a ≡ b) }
    ensures reply { (a b : Reply) → IsTrue (⟦<Reply as PartialEq>⟧.eq a b) ↔ (a ≡ b) }
    ensures act { (a b : Act) → IsTrue (⟦<Act as PartialEq>⟧.eq a b) ↔ (a ≡ b) }
{}
