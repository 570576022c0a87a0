//! Objects with names, numbered in the order of their first use.
ghost use Rattle.std.specs.Prelude.{◌≡◌, ◌+◌, ◌<◌, ◌≤◌, Some, IfOk, OnOk, length, map};
ghost use Rattle.limits.specs.declared.TheConstants.{MOST_LEAVES};
ghost use Rattle.job_names.specs.Names.{spelling};
ghost use Rattle.named_objects.specs.Objects.{named_in, names_of, number_among, numbers_of, object_in, with_object};

use indexmap::IndexSet;
use job_names::Name;
use seq_objects::Kind;
use std::alloc::{AllocError, Global};

/// An object that a call names.
#[derive(Clone, Copy, PartialEq, Eq, Hash)]
pub struct Object {
    pub kind: Kind,
    pub name: Name,
}

/// The numbers of the objects that leaves name, 0 where a leaf names none, and the names of the numbers 1, 2, and so on.
#[derive(Drop)]
pub struct Numbered {
    pub numbers: Vec<u32>,
    pub names: Vec<Name>,
}

/// The number of an object among those before it. One that is not among them is put behind them.
fn number_of(objects: &mut IndexSet<Object>, object: Object) -> Result<u32, AllocError>
    requires { length objects.old.keys < MOST_LEAVES }
    ensures number { IfOk result (λ number.
        number ≡ number_among (map object_in objects.old.keys) (Some (object_in object))) }
    ensures objects { OnOk result
        (map object_in objects.new.keys ≡ with_object (map object_in objects.old.keys) (object_in object)) }
    ensures few { OnOk result (length objects.new.keys ≤ length objects.old.keys + 1) }
{
    let (index, _) = objects.insert_full(object)?;
    Ok(index as u32 + 1)
}

/// The names of the objects, in their order.
fn names_in(alloc: Global, objects: &IndexSet<Object>) -> Result<Vec<Name>, AllocError>
    ensures { IfOk result (λ names. names.items ≡ map (λ object. object.name) objects.now.keys) }
{
    let objects = objects.as_slice();
    objects.iter().map(|object| object.name).collect(alloc)
}

/// The numbers and the names of the objects that these leaves name. It takes one look-up for each leaf.
pub fn number_objects(alloc: Global, leaves: &[Option<Object>]) -> Result<Numbered, AllocError>
    requires { length leaves.now ≤ MOST_LEAVES }
    ensures numbers { IfOk result (λ made. made.numbers.items ≡ numbers_of (map named_in leaves.now)) }
    ensures names { IfOk result (λ made.
        map (λ name. spelling name) made.names.items ≡ names_of (map named_in leaves.now)) }
{
    let mut objects = IndexSet::new(alloc);
    let mut numbers = Vec::new(alloc);
    for leaf in leaves {
        let number = match leaf {
            Some(object) => number_of(&mut objects, *object)?,
            None => 0,
        };
        numbers.push(number)?;
    }
    let names = names_in(alloc, &objects)?;
    Ok(Numbered { numbers, names })
}
