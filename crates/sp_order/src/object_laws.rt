//! The laws of named objects. Each is the contract of a function that does nothing.
ghost use Rattle.std.specs.Prelude.{◌≡◌, ℕ, ◌<◌, ◌≤◌, List, length, map};
ghost use Rattle.std.specs.List.{AllByRecursion};
ghost use Rattle.seq_objects.specs.declared.act.Act.{Act};
ghost use Rattle.seq_objects.specs.declared.op.Op.{Op};
ghost use Rattle.seq_objects.specs.Batches.{kind_of};
ghost use Rattle.seq_objects.specs.Objects.{number_of};
ghost use Rattle.sp_order.specs.Objects.{number_in, AreNamed, AreNumbered, AreUnnamed, IsFirstUsed, with_numbers};
ghost use Rattle.sp_order.specs.Sources.{with_argument};

/// Where the objects of a job are named, no number is above the count of the names, and each from 1 to that count is a
/// call's, before which all numbers are lower. Without names all numbers are 0.
pub fn named_numbers_are_by_first_use()
    ensures most { (acts : List Act) (names : List (List ℕ)) → AreNamed acts names
        → AllByRecursion (λ act. number_in act ≤ length names) acts }
    ensures each { (acts : List Act) (names : List (List ℕ)) (number : ℕ) → AreNamed acts names
        → 0 < number → number ≤ length names → IsFirstUsed acts number }
    ensures none { (acts : List Act) (names : List (List ℕ)) → AreNamed acts names
        → length names ≡ 0 → AreUnnamed acts }
{}

/// The numbers that a job's acts are given are those of their calls.
pub fn given_numbers_are_the_calls()
    ensures { (acts : List Act) (numbers : List ℕ) (names : List (List ℕ)) → AreNumbered acts numbers names
        → map (λ act. number_in act) (with_numbers acts numbers) ≡ numbers }
{}

/// Another argument leaves an operation at its object.
pub fn arguments_keep_objects()
    ensures number { (op : Op) (argument : ℕ) → number_of (with_argument op argument) ≡ number_of op }
    ensures kind { (op : Op) (argument : ℕ) → kind_of (with_argument op argument) ≡ kind_of op }
{}
