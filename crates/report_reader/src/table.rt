//! The numbers of named objects, by their kinds and names.
ghost use Rattle.std.specs.Prelude.{◌≡◌, ◌+◌, ◌<◌, ◌≤◌, ◌⊎◌, ◌++◌, ◌∷◌, true, false, [], length, None, Some, IfOk, IfNone, OnOk};
ghost use Rattle.job_names.specs.Names.{AreSpelled, name_of};
ghost use Rattle.seq_objects.specs.Parts.{kind_of, number_of};
ghost use Rattle.seq_objects.specs.declared.kind.Kind.{Kind as KindOf};
ghost use Rattle.sp_order.specs.Objects.{name_of_number};
ghost use Rattle.job_names.specs.declared.name.Name.{Name as NameOf};
ghost use Rattle.report_reader.specs.Code.Objects.{is_mark, names_in, number_in, found, IsKept, Inserts, Extends, IsTableOf};

use indexmap::IndexMap;
use job_names::{Name, name_of};
use seq_objects::{Act, Kind, Op};
use sp_order::Job;
use std::alloc::{AllocError, Global};

/// The numbers of the objects, by their kinds and names, and the names by their numbers, from 1. A table that grows
/// numbers each object that it has not yet.
#[derive(Drop)]
pub(crate) struct Table {
    numbers: IndexMap<(Kind, Name), u32>,
    names: Vec<Name>,
    grows: bool,
}

impl Table {
    /// A table without objects.
    pub(crate) fn new(alloc: Global, grows: bool) -> Table
        ensures kept { IsKept result }
        ensures names { result.names.items ≡ [] }
        ensures empty { (kind : KindOf) (name : NameOf) → number_in result kind name ≡ None }
        ensures grows { result.grows ≡ grows }
    {
        Table {
            numbers: IndexMap::new(alloc),
            names: Vec::new(alloc),
            grows,
        }
    }

    /// The number of the object of this kind with this name.
    fn get(&self, kind: Kind, name: Name) -> Option<u32>
        ensures { result ≡ number_in self.now kind name }
    {
        self.numbers.get(&(kind, name)).copied()
    }

    /// Gives the object of this kind with this name a number.
    fn insert(&mut self, kind: Kind, name: Name, number: u32) -> Result<(), AllocError>
        ensures { OnOk result (Inserts self.old self.new kind name number) }
    {
        self.numbers.insert((kind, name), number)?;
        Ok(())
    }

    /// Gives the object of a call its number, if it has a name.
    fn note(&mut self, op: Op) -> Result<(), AllocError>
        requires within { number_of op ≤ length (names_in self.old) }
        requires spelled { AreSpelled (names_in self.old) }
        ensures unnamed { OnOk result (number_of op ≡ 0 → self.new ≡ self.old) }
        ensures named { OnOk result (0 < number_of op → Inserts self.old self.new (kind_of op)
            (name_of (name_of_number (names_in self.old) (number_of op))) (number_of op)) }
    {
        let number = op.number();
        if number == 0 {
            return Ok(());
        }
        let name = name_of(self.names[number as usize - 1].bytes());
        self.insert(op.kind(), name, number)
    }

    /// The table of the objects that a job names.
    pub(crate) fn of(alloc: Global, job: &Job) -> Result<Table, AllocError>
        ensures { IfOk result (IsTableOf job.now) }
    {
        let mut table = Table::new(alloc, false);
        table.names.extend_from_slice(job.names())?;
        for act in job.acts() {
            if let Act::Call(op) = act {
                table.note(*op)?;
            }
        }
        Ok(table)
    }

    /// Numbers the object of this kind with this name, which it has not yet. Memory is taken to run out before 2^32
    /// names.
    fn add(&mut self, kind: Kind, name: Name) -> Result<u32, AllocError>
        ensures names { OnOk result (self.new.names.items ≡ self.old.names.items ++ name ∷ []) }
        ensures number { IfOk result (λ number. number ≡ length self.old.names.items + 1) }
        ensures grows { OnOk result (self.new.grows ≡ self.old.grows) }
        ensures own { IfOk result (λ number. number_in self.new kind name ≡ Some number) }
        ensures others { OnOk result ((k : KindOf) (n : NameOf)
            → ((k ≡ kind) × (n ≡ name)) ⊎ (number_in self.new k n ≡ number_in self.old k n)) }
    {
        self.names.push(name)?;
        let Ok(number) = u32::try_from(self.names.len()) else {
            return Err(AllocError);
        };
        self.insert(kind, name, number)?;
        Ok(number)
    }

    /// The number of the object of this kind with this mark; 0 for the empty mark.
    pub(crate) fn number(&mut self, kind: Kind, mark: &[u8]) -> Result<Option<u32>, AllocError>
        requires kept { IsKept self.old }
        requires mark { is_mark mark.now ≡ true }
        ensures kept { OnOk result (IsKept self.new) }
        ensures extends { OnOk result (Extends self.old self.new) }
        ensures found { IfOk result (λ number. number ≡ found self.new kind mark.now) }
        ensures none { IfOk result (λ number. IfNone number (self.old.grows ≡ false)) }
    {
        let Some((_, spelled)) = mark.split_first() else {
            return Ok(Some(0));
        };
        let name = name_of(spelled);
        match self.get(kind, name) {
            Some(number) => Ok(Some(number)),
            None if self.grows => Ok(Some(self.add(kind, name)?)),
            None => Ok(None),
        }
    }

    /// The names of its numbers, from 1.
    pub(crate) fn into_names(self) -> Vec<Name>
        ensures { result ≡ self.names }
    {
        self.names
    }
}
