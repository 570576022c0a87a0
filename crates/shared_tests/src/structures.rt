//! Threads that share structures.
ghost use Rattle.std.specs.Prelude.{◌≡◌, false};
ghost use Rattle.shared_calls.specs.Views.{IsCallerOf, number_of, is_lost};

use shared_calls::Caller;
use shared_structures::sending::{queues_go_to_threads, sets_go_to_threads};
use shared_structures::{
    CombinedQueue, CombinedSet, CombinedStack, Counter, SharedCounter, SharedQueue, SharedSet,
    SharedStack,
};
use std::alloc::AllocError;
use std::sync::Wait;
use std::test::*;
use std::thread;

/// The additions of each thread.
const ADDITIONS: u64 = 10_000;

/// Adds one again and again.
fn count_up<R: Wait>(
    rt: &R,
    counter: &SharedCounter,
    mut caller: Caller<Counter>,
) -> Caller<Counter>
    requires caller { IsCallerOf counter.now.shared caller }
    requires sound { is_lost caller ≡ false }
    ensures { IsCallerOf counter.now.shared result × (number_of result ≡ number_of caller) }
{
    for _ in 0..ADDITIONS {
        match counter.add(rt, &mut caller, 1) {
            Ok(_) => {}
            Err(AllocError) => return caller,
        }
    }
    caller
}

#[test]
fn four_threads_count(rt: HostRuntime) -> Result<(), Fail> {
    let (counter, callers) = SharedCounter::new(rt.alloc(), 4)?;
    let shared = &counter;
    let callers = thread::map_vec(
        &rt,
        callers,
        &|caller: Caller<Counter>| count_up(&rt, shared, caller),
    )?;
    assert!(rt; counter.close(callers) == 4 * ADDITIONS);
    Ok(())
}

/// The items and keys of each thread.
const ITEMS: u32 = 1_000;

/// Pushes items, pops one after each, and returns the sum of those that it popped.
fn push_and_pop<R: Wait>(rt: &R, stack: &SharedStack, mut caller: Caller<CombinedStack>) -> u64
    requires caller { IsCallerOf stack.now.shared caller }
    requires sound { is_lost caller ≡ false }
{
    let mut sum: u64 = 0;
    for item in 0..ITEMS {
        if let Err(_) = stack.push(rt, &mut caller, item) {
            return 0;
        }
        match stack.pop(rt, &mut caller) {
            Ok(Some(popped)) => sum = sum.wrapping_add(u64::from(popped)),
            _ => return 0,
        }
    }
    sum
}

#[test]
fn four_threads_pop_what_they_push(rt: HostRuntime) -> Result<(), Fail> {
    let (stack, callers) = SharedStack::new(rt.alloc(), 4)?;
    let shared = &stack;
    let sums = thread::map_vec(
        &rt,
        callers,
        &|caller: Caller<CombinedStack>| push_and_pop(&rt, shared, caller),
    )?;
    let most = u64::from(ITEMS);
    assert!(rt; sums.iter().fold(0u64, |all, sum| all.wrapping_add(*sum)) == 2 * most * (most - 1));
    let (stack, callers) = SharedStack::new(rt.alloc(), 1)?;
    assert!(rt; stack.close(callers).is_some());
    Ok(())
}

/// Inserts keys, and returns how many were new. Then calls the set in each other way.
fn insert_keys<R: Wait>(rt: &R, set: &SharedSet, mut caller: Caller<CombinedSet>) -> u64
    requires caller { IsCallerOf set.now.shared caller }
    requires sound { is_lost caller ≡ false }
{
    let mut new: u64 = 0;
    for key in 0..ITEMS {
        match set.insert(rt, &mut caller, key) {
            Ok(yes) => new = new.wrapping_add(u64::from(yes)),
            Err(_) => return 0,
        }
    }
    let Ok(Some(1)) = set.next_above(rt, &mut caller, 0) else {
        return 0;
    };
    let Ok(false) = set.remove(rt, &mut caller, ITEMS) else {
        return 0;
    };
    let Ok(true) = set.find(rt, &mut caller, 1) else {
        return 0;
    };
    new
}

#[test]
fn four_threads_insert_each_key_once(rt: HostRuntime) -> Result<(), Fail> {
    let (set, callers) = SharedSet::new(rt.alloc(), 4)?;
    let shared = &set;
    sets_go_to_threads();
    let news = thread::map_vec(
        &rt,
        callers,
        &|caller: Caller<CombinedSet>| insert_keys(&rt, shared, caller),
    )?;
    assert!(rt; news.iter().fold(0u64, |all, new| all.wrapping_add(*new)) == u64::from(ITEMS));
    let (set, callers) = SharedSet::new(rt.alloc(), 1)?;
    assert!(rt; set.close(callers).is_some());
    Ok(())
}

/// Inserts items, takes one after each, and returns the sum of those that it took.
fn insert_and_take<R: Wait>(rt: &R, queue: &SharedQueue, mut caller: Caller<CombinedQueue>) -> u64
    requires caller { IsCallerOf queue.now.shared caller }
    requires sound { is_lost caller ≡ false }
{
    let mut sum: u64 = 0;
    for item in 0..ITEMS {
        if let Err(_) = queue.insert(rt, &mut caller, item) {
            return 0;
        }
        match queue.take(rt, &mut caller) {
            Ok(Some(taken)) => sum = sum.wrapping_add(u64::from(taken)),
            _ => return 0,
        }
    }
    sum
}

#[test]
fn four_threads_take_what_they_insert(rt: HostRuntime) -> Result<(), Fail> {
    let (queue, callers) = SharedQueue::new(rt.alloc(), 4)?;
    let shared = &queue;
    queues_go_to_threads();
    let sums = thread::map_vec(
        &rt,
        callers,
        &|caller: Caller<CombinedQueue>| insert_and_take(&rt, shared, caller),
    )?;
    let most = u64::from(ITEMS);
    assert!(rt; sums.iter().fold(0u64, |all, sum| all.wrapping_add(*sum)) == 2 * most * (most - 1));
    let (queue, callers) = SharedQueue::new(rt.alloc(), 1)?;
    assert!(rt; queue.close(callers).is_some());
    Ok(())
}
