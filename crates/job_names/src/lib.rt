//! Names of the job language, and the lets that a use of a name may mean.
//!
//! `name` has the names and their spelling; `kind` and `scopes` say which lets a reader shows at its place of the text:
//! blocks are opened and closed, lets are added, and [`Scopes::look`] gives the number of the last let of a name that
//! is shown. It makes one binary search for each open block.
#![tactic(auto)]

pub mod kind;
pub mod laws;
pub mod name;
mod places;
pub mod scopes;

pub use kind::Kind;
pub use name::{Name, is_spelled, name_of};
pub use scopes::Scopes;
