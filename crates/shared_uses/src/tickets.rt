//! Tickets: threads draw from one counter. No ticket is drawn twice, and none is left out.
ghost use Rattle.std.specs.Prelude.{◌≡◌, ℕ, ◌*◌, ◌<◌, ◌≤◌, ◌^◌, [], false, length, slice_index_or, flat_map, IsPermutation, IfOk};
ghost use Rattle.std.specs.List.{range_with_len};
ghost use Rattle.shared_calls.specs.Views.{AreNewCallers, IsCallerOf, number_of, made, is_lost};
ghost use Rattle.shared_uses.specs.Drawing.{HasDrawn, AreApart};
ghost use Rattle.limits.specs.declared.TheConstants.{MOST_WORKERS};

use shared_calls::Caller;
use shared_structures::{Counter, SharedCounter};
use std::alloc::{AllocError, Global};
use std::sync::Wait;
use std::thread;
use std::thread::Threads;

/// A caller, and the tickets that it drew.
#[derive(Drop)]
pub struct Hand {
    pub caller: Caller<Counter>,
    pub tickets: Vec<u64>,
}

/// Draws so many tickets.
fn draw<R: Wait>(
    rt: &R,
    alloc: Global,
    counter: &SharedCounter,
    caller: Caller<Counter>,
    count: usize,
) -> Result<Hand, AllocError>
    requires caller { IsCallerOf counter.now.shared caller × (is_lost caller ≡ false) × (made caller ≡ []) }
    ensures caller { IfOk result (λ hand. IsCallerOf counter.now.shared hand.caller × (number_of hand.caller ≡ number_of caller)) }
    ensures drew { IfOk result (λ hand. HasDrawn count hand.caller hand.tickets.items) }
{
    let mut caller = caller;
    let mut tickets = Vec::with_capacity(alloc, count)?;
    for done in 0..count {
        let ticket = counter.add(rt, &mut caller, 1)?;
        tickets.push(ticket)?;
    }
    Ok(Hand { caller, tickets })
}

/// Each caller draws in a thread of its own.
fn draw_each<R: Wait + Threads + Sync>(
    rt: &R,
    alloc: Global,
    counter: &SharedCounter,
    callers: Vec<Caller<Counter>>,
    count: usize,
) -> Result<Vec<Result<Hand, AllocError>>, AllocError>
    requires callers { AreNewCallers (length callers.items) counter.now.shared callers.items }
    ensures count { IfOk result (λ hands. length hands.items ≡ length callers.items) }
    ensures each { IfOk result (λ hands. (i : ℕ) (h : _) → i < length callers.items → h ≡ slice_index_or hands.items i h
        → IfOk h (λ hand. IsCallerOf counter.now.shared hand.caller × (number_of hand.caller ≡ i) × HasDrawn count hand.caller hand.tickets.items)) }
{
    thread::map_vec(
        rt,
        callers,
        &|caller: Caller<Counter>| draw(rt, alloc, counter, caller, count),
    )
}

/// The callers and their tickets.
fn apart(
    alloc: Global,
    hands: Vec<Result<Hand, AllocError>>,
) -> Result<(Vec<Caller<Counter>>, Vec<Vec<u64>>), AllocError>
    ensures { IfOk result (λ r. AreApart (λ hand. hand.caller) hands.items r.0.items r.1.items) }
{
    let mut callers = Vec::with_capacity(alloc, hands.len())?;
    let mut drawn = Vec::with_capacity(alloc, hands.len())?;
    for hand in hands {
        let Hand { caller, tickets } = hand?;
        callers.push(caller)?;
        drawn.push(tickets)?;
    }
    Ok((callers, drawn))
}

/// Draws `count` tickets in each of so many threads. Together they draw each number from 1 on once.
pub fn draw_in_threads<R: Wait + Threads + Sync>(
    rt: &R,
    alloc: Global,
    threads: usize,
    count: usize,
) -> Result<Vec<Vec<u64>>, AllocError>
    requires threads { (1 ≤ threads) × (threads ≤ MOST_WORKERS) }
    requires fits { threads * count < 2 ^ 64 }
    ensures { IfOk result (λ drawn. IsPermutation (flat_map (λ tickets. tickets.items) drawn.items) (range_with_len 1 (threads * count))) }
{
    let (counter, callers) = SharedCounter::new(alloc, threads)?;
    let hands = draw_each(rt, alloc, &counter, callers, count)?;
    let (callers, drawn) = apart(alloc, hands)?;
    counter.close(callers);
    Ok(drawn)
}
