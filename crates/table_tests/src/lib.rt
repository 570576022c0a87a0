//! Tests of the running table, and of the turns over it, through their public calls alone.
//!
//! What each call does is proved for every table that meets the rule. The tests show that calls can follow one another
//! as their conditions ask, and that a table is made and closed with ample memory.
#![tactic(auto)]

#[cfg(test)]
mod held;
#[cfg(test)]
mod launches;
#[cfg(test)]
mod pairs;
#[cfg(test)]
mod runs;
#[cfg(test)]
mod steps;
#[cfg(test)]
mod stops;
#[cfg(test)]
mod threads;
#[cfg(test)]
mod workers;
