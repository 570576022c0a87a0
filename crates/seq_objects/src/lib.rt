//! The operations on the shared objects, and their sequential semantics.
//!
//! The specification of every run rests on this crate. The serial objects define what each operation does and
//! replies, `Plain` executes them one at a time, and the batch order fixes the order in which the calls of one
//! batch take effect. `laws` states that the serial set and bag stay sorted, and what they contain. `spin` is the
//! work of a leaf without a call. `Batched` is the interface of a structure that serves a whole batch in pieces: its
//! replies and its content must be those of serving the calls one after another; `serve_batch` shows that the
//! interface suffices for this. The crate depends on `key_sets`, which defines the serial set.
#![tactic(auto)]

pub mod act;
mod bag;
pub mod batch_order;
pub mod batched;
pub mod call;
pub mod kind;
pub mod laws;
pub mod op;
pub mod plain;
pub mod reply;
mod slot;
pub mod verb;
pub mod work;

pub use act::Act;
pub use batch_order::{comes_first, place_in_batch_order};
pub use batched::{Batched, run_in_turn, serve_batch};
pub use call::Call;
pub use kind::Kind;
pub use op::Op;
pub use plain::Plain;
pub use reply::{Reply, value};
pub use verb::{Verb, VerbRow, VerbWord};
pub use work::spin;
