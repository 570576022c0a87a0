//! A list of rows.
ghost use Rattle.std.specs.Prelude.{◌≡◌, ◌+◌, ◌<◌, ◌^◌, ◌++◌, [], ◌∷◌, length, map, OnOk, IfOk};
ghost use Rattle.object_rows.specs.declared.members.Members.TheVariants.{One as OneOf};
ghost use Rattle.object_rows.specs.Rows.{members};
ghost use Rattle.object_rows.specs.Code.Lasts.{lasts};

use crate::members::Members;
use crate::rows::take_lasts;
use std::alloc::{AllocError, Global};
use std::marker::Model;

/// Rows of members, by place. Contracts see the list of the rows. Those in front that have one member each, all where a
/// batch calls one structure of a kind, are kept as one vector of members.
#[derive(Drop)]
pub struct RowList<X: Drop> {
    ones: Vec<X>,
    others: Vec<Members<X>>,
}

impl<X: Drop> Model for RowList<X> {
    ghost use Rattle.std.specs.Prelude.{◌++◌, map};
    ghost use Rattle.object_rows.specs.declared.members.Members.TheVariants.{One};
    ghost use Rattle.object_rows.specs.Rows.{RowListView};

    ghost Value = { RowListView X };

    ghost view = { λ rows. record { items = map One rows.ones.items ++ rows.others.items } };
}

/// Pushes an item. An empty vector gets room for `room` items at once.
fn push_within<X: Drop>(items: &mut Vec<X>, item: X, room: usize) -> Result<(), AllocError>
    ensures { OnOk result (items.new.items ≡ items.old.items ++ item ∷ []) }
{
    if items.is_empty() {
        items.reserve_exact(room)?;
    }
    items.push(item)?;
    Ok(())
}

/// Each member in a row of its own.
fn ones_in_rows<X: Drop>(alloc: Global, ones: Vec<X>) -> Result<Vec<Members<X>>, AllocError>
    ensures { IfOk result (λ v. v.items ≡ map OneOf ones.items) }
{
    let mut rows = Vec::with_capacity(alloc, ones.len())?;
    for member in ones {
        rows.push(Members::One(member))?;
    }
    Ok(rows)
}

impl<X: Drop> RowList<X> {
    /// No rows.
    ///
    /// Memory: none.
    pub fn new(alloc: Global) -> RowList<X>
        ensures { result.items ≡ [] }
    {
        RowList {
            ones: Vec::new(alloc),
            others: Vec::new(alloc),
        }
    }

    /// A row for each of the first members, and these rows behind them.
    ///
    /// Memory: none.
    pub(crate) fn of_parts(ones: Vec<X>, others: Vec<Members<X>>) -> RowList<X>
        ensures { result.items ≡ map OneOf ones.items ++ others.items }
    {
        RowList { ones, others }
    }

    /// A row for each of these members.
    ///
    /// Memory: none.
    pub(crate) fn of_ones(alloc: Global, ones: Vec<X>) -> RowList<X>
        ensures { result.items ≡ map OneOf ones.items }
    {
        RowList::of_parts(ones, Vec::new(alloc))
    }

    /// These rows.
    ///
    /// Memory: none.
    pub(crate) fn of_rows(alloc: Global, others: Vec<Members<X>>) -> RowList<X>
        ensures { result.items ≡ others.items }
    {
        RowList::of_parts(Vec::new(alloc), others)
    }

    /// How many rows there are.
    pub fn len(&self) -> usize
        requires { length self.now.items < 2 ^ 32 }
        ensures { result ≡ length self.now.items }
    {
        self.ones.len() + self.others.len()
    }

    /// Puts a row behind the others. Where it is the first, there is room for `room` rows at once.
    pub fn push(&mut self, row: Members<X>, room: usize) -> Result<(), AllocError>
        ensures { OnOk result (self.new.items ≡ self.old.items ++ row ∷ []) }
    {
        if !self.others.is_empty() {
            self.others.push(row)?;
            return Ok(());
        }
        match row {
            Members::One(member) => push_within(&mut self.ones, member, room)?,
            Members::Many(all) => push_within(&mut self.others, Members::Many(all), room)?,
        }
        Ok(())
    }

    /// The members of the rows in front, and the rows behind them.
    ///
    /// Memory: none.
    pub fn into_parts(self) -> (Vec<X>, Vec<Members<X>>)
        ensures { self.items ≡ map OneOf result.0.items ++ result.1.items }
    {
        (self.ones, self.others)
    }

    /// The rows in a vector.
    pub(crate) fn into_rows(self, alloc: Global) -> Result<Vec<Members<X>>, AllocError>
        ensures { IfOk result (λ v. v.items ≡ self.items) }
    {
        let (ones, mut others) = self.into_parts();
        let mut rows = ones_in_rows(alloc, ones)?;
        rows.append(&mut others)?;
        Ok(rows)
    }

    /// The last member of each of the first `count` rows.
    pub(crate) fn into_lasts(self, alloc: Global, count: usize) -> Result<Vec<X>, AllocError>
        ensures { IfOk result (λ v. v.items ≡ lasts count (members self.items)) }
    {
        if self.others.is_empty() {
            if self.ones.len() == count {
                return Ok(self.ones);
            }
        }
        let mut rows = self.into_rows(alloc)?;
        take_lasts(alloc, &mut rows, count)
    }
}
