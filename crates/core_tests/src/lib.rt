//! Tests of the core by turns, and of shelves and sinks, through their public calls alone.
//!
//! How a run ends in which a worker has stopped is proved for every state. The tables here show which of the two ends a
//! small job comes to after each of its turns, and what each turn does.
#![tactic(auto)]

#[cfg(test)]
mod bytes;
#[cfg(test)]
mod jobs;
#[cfg(test)]
mod stopped;
#[cfg(test)]
mod turns;
