//! Tests of the deques, of the board, of pieces of a batch and of whole runs in threads, through their public calls alone.
//!
//! What a call answers is proved for every state that it may meet. No clause says that two workers are at work at one
//! time, that pending calls gather into one batch, or that a worker which waits helps: workers are held here until they
//! are seen to.
#![tactic(auto)]

#[cfg(test)]
mod board;
#[cfg(test)]
mod deques;
#[cfg(test)]
mod pieces;
#[cfg(test)]
mod runs;
#[cfg(test)]
mod works;
