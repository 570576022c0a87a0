//! The construction of the deques of one kind, and of all workers' ends of them.
ghost use Rattle.std.specs.Prelude.{◌≡◌, ◌<◌, ◌≤◌, ℕ, [], length, map, replicate, IfOk};
ghost use Rattle.crossbeam_deque.specs.Handles.{worker_capacity};
ghost use Rattle.two_deques.specs.Reaches.{ReachEach};
ghost use Rattle.two_deques.specs.Ends.{held_ends, fresh_ends, stolen_there};
ghost use Rattle.two_deques.specs.Pairs.{IsNewDeque};
ghost use Rattle.two_deques.specs.Code.Opening.{AreMade};

use crate::ends::{Ends, Reach};
use crate::rule::{DequeRule, Part};
use crossbeam_deque::{Stealer, Worker};
use std::alloc::{AllocError, Global};

type Own<T> = Worker<T, Global, Part<T>, DequeRule>;

type Thief<T> = Stealer<T, Global, Part<T>, DequeRule>;

/// A new deque's owner's end, with no reaches yet. `room` is the deque's least capacity.
#[tactic(auto, using(crate::proofs::RuleLemmas::Steps::begins))]
fn own_ends<T: Drop>(alloc: Global, room: usize) -> Result<Ends<T>, AllocError>
    ensures room { IfOk result (λ e. room ≤ worker_capacity e.own) }
    ensures fresh { IfOk result (λ e. held_ends e ≡ fresh_ends _ 0) }
{
    Ok(Ends {
        own: Own::lifo_as(alloc, room)?,
        empty_pops: 0,
        reaches: Vec::new(alloc),
    })
}

/// A new reach into each of these deques, in their order.
#[tactic(auto, using(crate::proofs::RuleLemmas::Steps::admits))]
fn reaches_into<T: Drop>(alloc: Global, thieves: &[Thief<T>]) -> Result<Vec<Reach<T>>, AllocError>
    ensures each { IfOk result (λ v. ReachEach thieves.now v.items) }
    ensures stolen { IfOk result (λ v. map stolen_there v.items ≡ replicate (length thieves.now) []) }
    ensures failed { IfOk result (λ v. map (λ reach. reach.failed_steals) v.items
        ≡ replicate (length thieves.now) 0) }
{
    let mut reaches = Vec::new(alloc);
    for i in 0..thieves.len() {
        reaches.push(Reach {
            pass: thieves[i].pass(),
            failed_steals: 0,
        })?;
    }
    Ok(reaches)
}

/// A new deque: its owner's ends, which reach into no deque yet, and its stealer.
pub(crate) fn own_deque<T: Drop>(
    alloc: Global,
    room: usize,
) -> Result<(Ends<T>, Thief<T>), AllocError>
    ensures { IfOk result (λ r. IsNewDeque room r.0 r.1) }
{
    let ends = own_ends::<T>(alloc, room)?;
    let thief = ends.own.stealer()?;
    Ok((ends, thief))
}

/// The owners' ends of these deques, in their order, now with a new reach into each deque.
pub(crate) fn with_reaches<T: Drop>(
    alloc: Global,
    thieves: &[Thief<T>],
    ends: Vec<Ends<T>>,
) -> Result<Vec<Ends<T>>, AllocError>
    requires { length ends.items ≡ length thieves.now }
    ensures { IfOk result (λ v. (room : ℕ)
        → AreMade 0 (length thieves.now) room thieves.now ends.items
        → AreMade (length thieves.now) (length thieves.now) room thieves.now v.items) }
{
    let mut all = ends;
    for worker in 0..thieves.len() {
        all[worker].reaches = reaches_into(alloc, thieves)?;
    }
    Ok(all)
}
