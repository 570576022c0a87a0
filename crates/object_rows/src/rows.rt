//! Lists in rows by place, and the lists taken out of them again.
ghost use Rattle.std.specs.Prelude.{◌≡◌, ◌≤◌, ◌++◌, length, option_to_list, IfOk, OnOk};
ghost use Rattle.object_rows.specs.Rows.{members, added};
ghost use Rattle.object_rows.specs.Code.Members.{with_member};
ghost use Rattle.object_rows.specs.Code.Lasts.{lasts, fronts, last_at, without_last};

use crate::members::{Members, pop_member, push_member};
use std::alloc::{AllocError, Global};

/// Puts a member at the end of the row at `place`, or into a row of its own behind the last.
fn put_member<X: Drop>(
    alloc: Global,
    rows: &mut Vec<Members<X>>,
    place: usize,
    member: X,
) -> Result<(), AllocError>
    requires { place ≤ length rows.old.items }
    ensures { OnOk result (members rows.new.items ≡ with_member place member (members rows.old.items)) }
{
    if place < rows.len() {
        let row = &mut rows[place];
        push_member(alloc, row, member)?;
    } else {
        rows.push(Members::One(member))?;
    }
    Ok(())
}

/// Puts the members of a list into rows, each at the end of the row at its place.
pub(crate) fn add_to_rows<X: Drop>(
    alloc: Global,
    rows: &mut Vec<Members<X>>,
    list: Vec<X>,
) -> Result<(), AllocError>
    ensures { OnOk result (members rows.new.items ≡ added (members rows.old.items) list.items) }
{
    let mut place = 0;
    for member in list {
        put_member(alloc, rows, place, member)?;
        place += 1;
    }
    Ok(())
}

/// Takes the last member out of the row at `place`, if there is one.
fn take_last<X: Drop>(alloc: Global, rows: &mut Vec<Members<X>>, place: usize) -> Option<X>
    ensures taken { option_to_list result ≡ last_at place (members rows.old.items) }
    ensures left { members rows.new.items ≡ without_last place (members rows.old.items) }
{
    if place < rows.len() {
        let row = &mut rows[place];
        pop_member(alloc, row)
    } else {
        None
    }
}

/// Pushes a member, if there is one.
fn push_some<X: Drop>(taken: &mut Vec<X>, member: Option<X>) -> Result<(), AllocError>
    ensures { OnOk result (taken.new.items ≡ taken.old.items ++ option_to_list member) }
{
    if let Some(member) = member {
        taken.push(member)?;
    }
    Ok(())
}

/// Takes the last member out of each of the first `count` rows.
pub(crate) fn take_lasts<X: Drop>(
    alloc: Global,
    rows: &mut Vec<Members<X>>,
    count: usize,
) -> Result<Vec<X>, AllocError>
    ensures taken { IfOk result (λ v. v.items ≡ lasts count (members rows.old.items)) }
    ensures left { IfOk result (λ v. members rows.new.items ≡ fronts count (members rows.old.items)) }
{
    let mut taken = Vec::with_capacity(alloc, count)?;
    for place in 0..count {
        let last = take_last(alloc, rows, place);
        push_some(&mut taken, last)?;
    }
    Ok(taken)
}
