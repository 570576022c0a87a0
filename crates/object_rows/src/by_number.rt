//! Structures by number.
ghost use Rattle.std.specs.Prelude.{◌≡◌, ◌==◌, ℕ, Some, None, if◌then◌else◌, OnOk};
ghost use Rattle.object_rows.specs.Contents.{structure_at};

use std::alloc::{AllocError, Global};
use std::collections::BTreeMap;

/// At most one structure for each number. Contracts see them by `structure_at`. That of number 0 is kept apart, since
/// the calls of most jobs go there. A structure that is taken out leaves its place behind, so that no other moves when it
/// is put back.
#[derive(Drop)]
pub struct ByNumber<T> {
    pub first: Option<T>,
    pub others: BTreeMap<u32, Option<T>>,
}

impl<T: Drop> ByNumber<T> {
    /// No structure.
    ///
    /// Memory: none.
    pub fn new(alloc: Global) -> ByNumber<T>
        ensures { (number : ℕ) → structure_at result number ≡ None }
    {
        ByNumber {
            first: None,
            others: BTreeMap::new(alloc),
        }
    }

    /// Takes out the structure of a number, if there is one.
    #[inline(always)]
    pub(crate) fn take(&mut self, number: u32) -> Option<T>
        ensures taken { result ≡ structure_at self.old number }
        ensures others { (other : ℕ) → structure_at self.new other
            ≡ (if other == number then None else structure_at self.old other) }
    {
        if number == 0 {
            return self.first.take();
        }
        if let Some(place) = self.others.get_mut(&number) {
            return place.take();
        }
        None
    }

    /// Puts a structure in as that of a number.
    #[inline(always)]
    pub(crate) fn put(&mut self, number: u32, structure: T) -> Result<(), AllocError>
        ensures { OnOk result ((other : ℕ) → structure_at self.new other
            ≡ (if other == number then Some structure else structure_at self.old other)) }
    {
        if number == 0 {
            self.first = Some(structure);
            return Ok(());
        }
        if let Some(place) = self.others.get_mut(&number) {
            *place = Some(structure);
            return Ok(());
        }
        self.others.insert(number, Some(structure))?;
        Ok(())
    }
}
