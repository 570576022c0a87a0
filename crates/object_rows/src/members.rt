//! The members of one row.
ghost use Rattle.std.specs.Prelude.{◌≡◌, [], ◌∷◌, ◌++◌, option_to_list, IfOk, OnOk};
ghost use Rattle.object_rows.specs.Rows.{list_of};
ghost use Rattle.object_rows.specs.Code.Lasts.{last_of, front_of};

use std::alloc::{AllocError, Global};
use std::mem;

/// The members of one row. An only one, as where a batch calls one structure of a kind, is kept without a vector.
#[derive(Drop)]
pub enum Members<X> {
    One(X),
    Many(Vec<X>),
}

/// The members in a vector.
fn in_vector<X: Drop>(alloc: Global, members: Members<X>) -> Result<Vec<X>, AllocError>
    ensures { IfOk result (λ v. v.items ≡ list_of members) }
{
    match members {
        Members::One(member) => {
            let mut all = Vec::with_capacity(alloc, 4)?;
            all.push(member)?;
            Ok(all)
        }
        Members::Many(all) => Ok(all),
    }
}

/// Puts a member behind the others. These are lost if memory runs out.
pub(crate) fn push_member<X: Drop>(
    alloc: Global,
    members: &mut Members<X>,
    member: X,
) -> Result<(), AllocError>
    ensures { OnOk result (list_of members.new ≡ list_of members.old ++ member ∷ []) }
{
    match members {
        Members::Many(all) => all.push(member)?,
        Members::One(_) => {
            let before = mem::replace(members, Members::Many(Vec::new(alloc)));
            let mut all = in_vector(alloc, before)?;
            all.push(member)?;
            *members = Members::Many(all);
        }
    }
    Ok(())
}

/// Takes the last member out, if there is one.
pub(crate) fn pop_member<X: Drop>(alloc: Global, members: &mut Members<X>) -> Option<X>
    ensures taken { option_to_list result ≡ last_of (list_of members.old) }
    ensures left { list_of members.new ≡ front_of (list_of members.old) }
{
    match mem::replace(members, Members::Many(Vec::new(alloc))) {
        Members::One(member) => Some(member),
        Members::Many(mut all) => {
            let last = all.pop();
            *members = Members::Many(all);
            last
        }
    }
}
