//! The objects that the leaves of a job name, while its copies are made.
ghost use Rattle.std.specs.Prelude.{◌≡◌, ◌+◌, ◌-◌, ◌<◌, ◌≤◌, ◌++◌, [], ◌∷◌, Some, length, replicate, map, IfOk, OnOk};
ghost use Rattle.std.specs.Option.{option_map};
ghost use Rattle.limits.specs.declared.TheConstants.{MOST_LEAVES};
ghost use Rattle.job_names.specs.Names.{spelling};
ghost use Rattle.job_syntax.specs.Views.{leaf_of};
ghost use Rattle.sp_order.specs.Objects.{AreNumbered, AreUnnamed, with_numbers};
ghost use Rattle.job_lang.specs.Objects.{number_among, with_object};
ghost use Rattle.job_lang.specs.Meaning.{object_of, object_named};
ghost use Rattle.job_lang.specs.Code.Numbered.{object_in, named_in, names_in, numbers_in, AreListed, NamesBehind};

use indexmap::IndexSet;
use job_names::Name;
use job_syntax::Leaf;
use seq_objects::Kind;
use sp_order::Job;
use std::alloc::{AllocError, Global};

/// An object that a leaf names.
#[derive(Clone, Copy, PartialEq, Eq, Hash)]
pub(crate) struct Object {
    kind: Kind,
    name: Name,
}

/// The distinct objects that the leaves made so far name, in the order of the first leaf that names each, and the
/// numbers of the leaves' objects, from 1 on. Behind the last leaf that names one, and at each that names none, the
/// number is 0; the last zeros are left out.
#[derive(Drop)]
pub(crate) struct Objects {
    numbers: Vec<u32>,
    named: IndexSet<Object>,
}

/// The object of a kind with this name, if there is one.
fn object_named(kind: Kind, name: Option<Name>) -> Option<Object>
    ensures { option_map object_in result ≡ object_named kind name }
{
    match name {
        Some(name) => Some(Object { kind, name }),
        None => None,
    }
}

/// The object that a leaf names, if it names one.
pub(crate) fn object_of(leaf: Leaf) -> Option<Object>
    ensures { option_map object_in result ≡ object_of (leaf_of leaf) }
{
    match leaf {
        Leaf::Work(_) => None,
        Leaf::Call { verb, object, .. } => object_named(verb.kind(), object),
    }
}

/// Appends zeros up to a length.
fn fill(numbers: &mut Vec<u32>, count: usize) -> Result<(), AllocError>
    ensures { OnOk result
        (numbers.new.items ≡ numbers.old.items ++ replicate (count - length numbers.old.items) 0) }
{
    for _ in numbers.len()..count {
        numbers.push(0)?;
    }
    Ok(())
}

impl Objects {
    /// No objects, at the front of a job.
    pub(crate) fn new(alloc: Global) -> Objects
        ensures listed { AreListed result [] }
        ensures none { result.named.keys ≡ [] }
    {
        Objects {
            numbers: Vec::new(alloc),
            named: IndexSet::new(alloc),
        }
    }

    /// Adds the object that the leaf at this place names.
    fn add_named(&mut self, place: usize, object: Object) -> Result<(), AllocError>
        requires place { place < MOST_LEAVES }
        requires few { length self.old.named.keys ≤ place }
        ensures numbers { OnOk result
            (self.new.numbers.items
            ≡ numbers_in self.old place ++ number_among (named_in self.old) (Some (object_in object)) ∷ []) }
        ensures named { OnOk result (named_in self.new ≡ with_object (named_in self.old) (object_in object)) }
    {
        fill(&mut self.numbers, place)?;
        let (index, _) = self.named.insert_full(object)?;
        self.numbers.push(index as u32 + 1)?;
        Ok(())
    }

    /// Adds the object that the leaf at this place names, if it names one.
    pub(crate) fn add(&mut self, place: usize, object: Option<Object>) -> Result<(), AllocError>
        requires place { place < MOST_LEAVES }
        requires few { length self.old.named.keys ≤ place }
        ensures listed { OnOk result (NamesBehind place self.old self.new (option_map object_in object ∷ [])) }
        ensures few { OnOk result (length self.new.named.keys ≤ place + 1) }
    {
        match object {
            Some(object) => self.add_named(place, object),
            None => Ok(()),
        }
    }

    /// The names of the objects, by their numbers.
    fn names(&self, alloc: Global) -> Result<Vec<Name>, AllocError>
        ensures { IfOk result (λ names. names.items ≡ map (λ object. object.name) self.now.named.keys) }
    {
        let objects = self.named.as_slice();
        objects.iter().map(|object| object.name).collect(alloc)
    }

    /// The job whose leaves call these objects.
    pub(crate) fn called_in(self, alloc: Global, job: Job) -> Result<Job, AllocError>
        requires few { length self.numbers.items ≤ length job.acts }
        requires numbered { AreNumbered job.acts (numbers_in self (length job.acts)) (names_in self) }
        requires unnamed { AreUnnamed job.acts }
        requires nameless { job.names ≡ [] }
        ensures { IfOk result (λ called.
            called
            ≡ record job { acts = with_numbers job.acts (numbers_in self (length job.acts)); names = names_in self }) }
    {
        if self.named.is_empty() {
            return Ok(job);
        }
        let names = self.names(alloc)?;
        let Objects { mut numbers, .. } = self;
        fill(&mut numbers, job.acts().len())?;
        Ok(Job::with_objects(job, numbers, names))
    }
}
