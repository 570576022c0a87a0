//! The meaning of each answer of a turn. Each law is the contract of a function with an empty body. The contract of a
//! turn describes its answer as a path, step by step from the worker's old view to its new one; the laws derive from
//! this path which counts and lists grew, and what is unchanged.
ghost use Rattle.worker_crew.specs.Workers.{me_seen, IsMeOf};
ghost use Rattle.worker_turns.specs.Meanings.Gains.{HasAllEnds};

use leaf_work::{LeafWork, WorkBrand};
use worker_crew::{Crew, Me};

pub mod events;
pub mod free;
pub mod launches;
pub mod stays;
pub mod trapped;

/// A worker of a crew meets `HasAllEnds`, a premise of laws of the turns: it has its ends of all workers' deques.
#[tactic(auto, using(crate::proofs::MeaningLemmas::Gains::has_all_ends))]
pub fn a_worker_has_its_ends_of_all_deques<G, B: WorkBrand, W: LeafWork>(
    crew: &Crew<G, B, W>,
    me: &Me,
)
    requires me { IsMeOf crew.now me.now }
    ensures { HasAllEnds (me_seen me.now) }
{}
