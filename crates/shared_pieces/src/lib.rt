//! Batches of a shared structure that are served in pieces, which the callers that wait help to run.
//!
//! A structure says by `InPieces` how a batch is cut into pieces, and what a piece owes. A caller's `PieceHelper` posts
//! the pieces of its batch on a board that all callers share (`piece_board`), runs those that nobody has claimed, and
//! collects their outputs; a caller that waits claims pieces of the caller that serves. Whoever ran the pieces, the batch
//! was served as if its calls came one after another in some order. The crate stands on `shared_calls`, whose callers
//! ask their helpers while they wait. `serve_batch` waits; no other function does.
#![tactic(auto)]

pub mod helper;
mod in_pieces;
mod rows;
pub mod sharing;
mod work;

pub use helper::PieceHelper;
pub use in_pieces::InPieces;
pub use sharing::share_in_pieces;
pub use work::Pieces;
