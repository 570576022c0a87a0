//! What holds of each worker of a crew, as contracts of functions that do nothing.
ghost use Rattle.core_table.specs.Passes.{IsPassOf, IsNotTrapped, pass_view};
ghost use Rattle.worker_crew.specs.Passes.{IsFree};

use core_table::{CoreTable, Pass};
use leaf_work::WorkBrand;

/// A worker whose call is not outstanding does not have the flag.
#[tactic(auto, using(crate::proofs::FlagLemmas::free_of))]
pub fn workers_that_are_not_trapped_are_free<B: WorkBrand>(table: &CoreTable<B>, pass: &Pass)
    requires pass { IsPassOf table.now pass.now }
    requires free { IsNotTrapped pass.now }
    ensures { IsFree (pass_view pass.now) }
{}
