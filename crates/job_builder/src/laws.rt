//! The law of jobs without named objects. It is the contract of a function that does nothing.
ghost use Rattle.std.specs.Prelude.{◌≡◌, [], List, Option, None};
ghost use Rattle.std.specs.List.{AllByRecursion};
ghost use Rattle.named_objects.specs.Objects.{NamedObject, names_of, numbers_of};
ghost use Rattle.seq_objects.specs.declared.act.Act.{Act};
ghost use Rattle.sp_order.specs.Objects.{AreUnnamed, with_numbers};

/// Where no leaf names an object, the job that is built has no names, and the acts of the draft.
pub fn jobs_without_names_keep_their_acts()
    ensures acts { (acts : List Act) (objects : List (Option NamedObject)) → AreUnnamed acts
        → AllByRecursion (λ object. object ≡ None) objects → with_numbers acts (numbers_of objects) ≡ acts }
    ensures names { (objects : List (Option NamedObject)) → AllByRecursion (λ object. object ≡ None) objects
        → names_of objects ≡ [] }
{}
