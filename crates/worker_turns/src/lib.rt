//! The turns of one worker: work stealing, calls that are served in implicit batches, and helping while a call waits.
//!
//! A free worker runs a node or a piece of its own deques, or steals one (`free`), and carries a claimed node on until
//! its task is idle again (`carry`). A worker that posts a call is trapped until a batch has answered it (`calling`):
//! it helps with pieces, tries to leave, and tries to launch a batch itself (`trapped`). A launch takes the pending
//! calls, serves them as one batch whose pieces any worker may run (`launching`, `pieces`), and answers them. A turn's
//! contract describes its answer as a path from the worker's old view to its new one; `laws` derives from it which
//! counts and lists grew. A worker takes turns until the root is done or the run is stopped (`worker`), and backs off
//! after turns that did nothing (`back_off`). The crate builds on `worker_crew`, which has the worker and the shared state;
//! on `core_table`, whose calls a turn makes; and on `two_deques`, `piece_board` and `launch_batch`.
#![tactic(auto)]

pub mod attempts;
mod back_off;
pub mod calling;
mod carry;
pub mod free;
pub mod launching;
pub mod laws;
mod pieces;
pub mod trapped;
pub mod worker;

pub use attempts::{NodeAttempt, PieceAttempt, StealAttempt};
pub use calling::{Called, call};
pub use free::{Did, free_turn};
pub use launching::launch;
pub use trapped::{Trapped, trapped_turn};
pub use worker::work;
pub use worker_crew::{BatchPieces, Crew, Me, Stop};
