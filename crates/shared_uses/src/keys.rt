//! Distinct keys: threads insert their keys into one set. As many insertions find their key new as there are distinct
//! keys.
ghost use Rattle.std.specs.Prelude.{◌≡◌, ℕ, ◌%◌, ◌^◌, ◌<◌, ◌≤◌, [], false, length, map, sum_by, flat_map, slice_index_or, None, IsSome, IfSome, IfOk};
ghost use Rattle.std.specs.List.{AllByRecursion};
ghost use Rattle.shared_calls.specs.Views.{IsCallerOf, number_of, made, is_lost};
ghost use Rattle.shared_uses.specs.declared.keys.Inserter.{Inserter as InserterOf};
ghost use Rattle.shared_uses.specs.Inserting.{IsDistinctCount, HaveInserted, IsReady, IsDone, new_in};
ghost use Rattle.limits.specs.declared.TheConstants.{MOST_WORKERS};

use shared_calls::Caller;
use shared_structures::sending::sets_go_to_threads;
use shared_structures::{CombinedSet, SharedSet};
use std::alloc::{AllocError, Global};
use std::sync::Wait;
use std::thread;
use std::thread::Threads;

/// A caller with the keys that it inserts, and how many of them are new, once all are inserted.
#[derive(Drop)]
pub struct Inserter {
    pub caller: Caller<CombinedSet>,
    pub keys: Vec<u32>,
    pub count: Option<u64>,
}

/// An inserter for each caller and its keys.
fn inserters_of(
    alloc: Global,
    callers: Vec<Caller<CombinedSet>>,
    keys: Vec<Vec<u32>>,
) -> Result<Vec<Inserter>, AllocError>
    requires { length callers.items ≡ length keys.items }
    ensures callers { IfOk result (λ all. map (λ i. i.caller) all.items ≡ callers.items) }
    ensures keys { IfOk result (λ all. map (λ i. i.keys) all.items ≡ keys.items) }
    ensures none { IfOk result (λ all. AllByRecursion (λ i. i.count ≡ None) all.items) }
{
    let mut all = Vec::with_capacity(alloc, keys.len())?;
    for (caller, keys) in callers.into_iter().zip(keys) {
        all.push(Inserter {
            caller,
            keys,
            count: None,
        })?;
    }
    Ok(all)
}

/// Inserts the keys of an inserter, and counts those that are new.
fn insert_keys<R: Wait>(rt: &R, set: &SharedSet, own: &mut Inserter)
    requires caller { IsCallerOf set.now.shared own.old.caller × (is_lost own.old.caller ≡ false) × (made own.old.caller ≡ []) }
    requires none { own.old.count ≡ None }
    ensures own { IsCallerOf set.now.shared own.new.caller × (number_of own.new.caller ≡ number_of own.old.caller) }
    ensures inserted { IfSome own.new.count (λ new. HaveInserted own.old.keys.items (made own.new.caller) new) }
{
    let mut new = 0u64;
    for i in 0..own.keys.len() {
        let Ok(yes) = set.insert(rt, &mut own.caller, own.keys[i]) else {
            return;
        };
        new += u64::from(yes);
    }
    own.count = Some(new);
}

/// Each inserter in a thread of its own.
fn insert_each<R: Wait + Threads + Sync>(rt: &R, set: &SharedSet, all: &mut Vec<Inserter>)
    requires some { 0 < length all.old.items }
    requires ready { (i : ℕ) (x : InserterOf) → i < length all.old.items → x ≡ slice_index_or all.old.items i x → IsReady set.now i x }
    ensures count { length all.new.items ≡ length all.old.items }
    ensures done { (i : ℕ) (x y : InserterOf) → i < length all.old.items → x ≡ slice_index_or all.old.items i x → y ≡ slice_index_or all.new.items i y → IsDone set.now i x.keys.items y }
{
    sets_go_to_threads();
    let threads = all.len();
    thread::for_each_mut(
        rt,
        all,
        threads,
        &|_: usize, own: &mut Inserter| insert_keys(rt, set, own),
    );
}

/// The callers, and how many keys they found new, modulo 2^64.
fn apart(alloc: Global, all: Vec<Inserter>) -> Result<(Vec<Caller<CombinedSet>>, u64), AllocError>
    ensures callers { IfOk result (λ r. map (λ i. i.caller) all.items ≡ r.0.items) }
    ensures whole { IfOk result (λ r. AllByRecursion (λ i. IsSome i.count) all.items) }
    ensures new { IfOk result (λ r. sum_by new_in all.items % 2 ^ 64 ≡ r.1) }
{
    let mut callers = Vec::with_capacity(alloc, all.len())?;
    let mut total = 0u64;
    for Inserter { caller, count, .. } in all {
        let Some(new) = count else {
            return Err(AllocError);
        };
        callers.push(caller)?;
        total = total.wrapping_add(new);
    }
    Ok((callers, total))
}

/// Counts the distinct keys of all lists together: a thread for each list inserts its keys into one set. Returns
/// `AllocError` where memory runs out.
pub fn count_distinct<R: Wait + Threads + Sync>(
    rt: &R,
    alloc: Global,
    keys: Vec<Vec<u32>>,
) -> Result<u64, AllocError>
    requires threads { (1 ≤ length keys.items) × (length keys.items ≤ MOST_WORKERS) }
    ensures { IfOk result (λ count. IsDistinctCount (flat_map (λ own. own.items) keys.items) count) }
{
    let (set, callers) = SharedSet::new(alloc, keys.len())?;
    let mut all = inserters_of(alloc, callers, keys)?;
    insert_each(rt, &set, &mut all);
    let (callers, new) = apart(alloc, all)?;
    drop(set.close(callers));
    Ok(new)
}
