//! For each name the places of its lets.
ghost use Rattle.std.specs.Prelude.{◌≡◌, ℕ, ◌≤◌, ◌<◌, List, [], ◌∷◌, ◌++◌, false, length, slice_index, OnOk};
ghost use Rattle.std.specs.List.Sorted.{IsNonDecreasingBy};
ghost use Rattle.job_names.specs.declared.name.Name.{Name};
ghost use Rattle.job_names.specs.Names.{same_name};
ghost use Rattle.job_names.specs.Code.Places.{list_of};

use crate::name::Name;
use indexmap::IndexMap;
use std::alloc::{AllocError, Global};

/// For each name the places of its lets, ascending.
#[derive(Drop)]
pub(crate) struct Places {
    alloc: Global,
    lists: IndexMap<Name, Vec<usize>>,
}

/// How many of some ascending places are below a place.
pub(crate) fn count_below(places: &[usize], end: usize) -> usize
    requires { IsNonDecreasingBy (λ (place : ℕ). place) places.now }
    ensures most { result ≤ length places.now }
    ensures below { (k : ℕ) → k < result → slice_index places.now k < end }
    ensures above { (k : ℕ) → result ≤ k → k < length places.now → end ≤ slice_index places.now k }
{
    places.partition_point(|place| *place < end)
}

impl Places {
    pub(crate) fn new(alloc: Global) -> Places
        ensures { (name : Name) → list_of result name ≡ [] }
    {
        Places {
            alloc,
            lists: IndexMap::new(alloc),
        }
    }

    /// The places of a name.
    pub(crate) fn of(&self, name: Name) -> &[usize]
        ensures { result.now ≡ list_of self.now name }
    {
        match self.lists.get(&name) {
            Some(list) => list,
            None => &[],
        }
    }

    /// Adds a place of a name.
    pub(crate) fn push(&mut self, name: Name, place: usize) -> Result<(), AllocError>
        ensures others { OnOk result
            ((other : Name) → same_name name other ≡ false → list_of self.new other ≡ list_of self.old other) }
        ensures own { OnOk result (list_of self.new name ≡ list_of self.old name ++ place ∷ []) }
    {
        match self.lists.get_mut(&name) {
            Some(list) => list.push(place)?,
            None => {
                let mut list = Vec::new(self.alloc);
                list.push(place)?;
                self.lists.insert(name, list)?;
            }
        }
        Ok(())
    }

    /// Drops the last place of a name.
    pub(crate) fn pop(&mut self, name: Name)
        ensures others { (other : Name) → same_name name other ≡ false → list_of self.new other ≡ list_of self.old other }
        ensures own { (place : ℕ) (front : List ℕ) → list_of self.old name ≡ front ++ place ∷ [] → list_of self.new name ≡ front }
    {
        if let Some(list) = self.lists.get_mut(&name) {
            list.pop();
        }
    }
}
