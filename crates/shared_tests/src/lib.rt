//! Tests of what threads of one's own share, through public calls alone.
//!
//! What a call owes is proved for every run; these runs in threads show that the clauses say what is meant, that calls
//! succeed with ample memory, and that a program outside of the crates can use them.
#![tactic(auto)]

#[cfg(test)]
mod bulk_pieces;
#[cfg(test)]
mod collections;
#[cfg(test)]
mod meeting;
#[cfg(test)]
mod replies;
#[cfg(test)]
mod structures;
#[cfg(test)]
mod tally;
#[cfg(test)]
mod uses;
#[cfg(test)]
mod words;
