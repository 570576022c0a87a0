//! What the leaves of work of a job compute.
//!
//! `LeafWork` is a function of the caller's, from the number of a leaf of work to its value, with its meaning. `Spin` is
//! the work of `seq_objects`. `WorkBrand` is a meaning as a type, by which the type of a core says what its leaves
//! compute, and `BrandedWork` is borrowed work with such a meaning, for the threads of workers. `WorkValue` is what gives
//! a turn the value of its leaf.
#![tactic(auto)]

mod brand;
mod branded;
mod function;
mod spin;
mod value;

pub use brand::WorkBrand;
pub use branded::BrandedWork;
pub use function::LeafWork;
pub use spin::Spin;
pub use value::WorkValue;
