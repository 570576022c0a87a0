//! Tests of the serial objects, of the batched structures and of the shop over them, through their public calls alone.
//!
//! What a call replies and leaves is proved for every input; the rows here are worked by hand, and show that the
//! clauses say what is meant, and that the calls succeed with ample memory.
#![tactic(auto)]

#[cfg(test)]
mod batch;
#[cfg(test)]
mod beside_plain;
#[cfg(test)]
mod counter;
#[cfg(test)]
mod plain;
#[cfg(test)]
mod queue;
#[cfg(test)]
mod shop;
#[cfg(test)]
mod stack;
#[cfg(test)]
mod tree;
#[cfg(test)]
mod tree_set;
