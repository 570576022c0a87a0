//! The work-stealing deques: each worker owns two, one of ready nodes and one of pieces of batches.
//!
//! A worker pushes and pops at the newest end of its own deques, and steals the oldest task of another worker's.
//! `rule` is the invariant of a deque: the owner's list of tasks is the list of all stolen tasks, followed by
//! the tasks in the deque. `laws` states its consequences for a push, a pop and a steal: none of them loses,
//! duplicates or reorders tasks. `tries` chooses the victims of steals. The crate depends on `crossbeam_deque`,
//! which maintains the invariant while all threads run.
//!
//! `pair` makes the two deques of one worker, in any thread, and `decks` joins the pairs of all workers. The crate
//! starts no threads itself.
//!
//! The rule and a worker's access to the deques of one kind (`ends`) are generic in the type of task, so nodes and
//! pieces share one rule and one set of proofs. `Hand` and `Decks` have one field for each kind.
#![tactic(auto)]

pub mod decks;
pub mod ends;
pub mod hand;
pub mod laws;
pub mod pair;
pub mod rule;
pub mod spot;
pub mod tries;

pub use decks::Decks;
pub use hand::Hand;
pub use pair::{DeckPair, Rooms, Stealers};
pub use spot::Spot;
pub use tries::{Deck, Tries, Try};
