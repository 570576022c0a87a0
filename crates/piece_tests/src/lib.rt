//! Tests of the structures that are handed whole batches and serve them in threads, and of what they share, through
//! their public calls alone.
//!
//! What a call replies and leaves is proved for every input and every number of threads; the rows here are worked by
//! hand, and show that the clauses say what is meant, that the calls succeed with ample memory, and that a batch in
//! several threads replies the same.
#![tactic(auto)]

#[cfg(test)]
mod bulk;
#[cfg(test)]
mod dealing;
#[cfg(test)]
mod map;
#[cfg(test)]
mod numbers;
#[cfg(test)]
mod queue;
#[cfg(test)]
mod ranks;
#[cfg(test)]
mod script;
#[cfg(test)]
mod words;
