//! Threads count the words of a text in a map that they share.
ghost use Rattle.std.specs.Prelude.{◌≡◌, ℕ, ◌<◌, ◌≤◌, ◌++◌, [], false, length, map, slice_index_or, Ok, IfOk, OnOk};
ghost use Rattle.shared_calls.specs.Views.{IsCallerOf, number_of, made, is_lost};
ghost use Rattle.word_counts.specs.declared.parts.Part.{Part as PartOf};
ghost use Rattle.word_counts.specs.Words.{is_white_space, ended, words_of};
ghost use Rattle.word_counts.specs.Counts.{entries_of, counts_of};
ghost use Rattle.std.specs.List.{between};
ghost use Rattle.limits.specs.declared.TheConstants.{MOST_WORKERS};

use crate::counts::WordCounts;
use crate::parts::{Part, parts_of};
use shared_calls::{Caller, Shared};
use std::alloc::{AllocError, Global};
use std::sync::Wait;
use std::thread;
use std::thread::Threads;

/// Whether the byte is white space.
fn is_space(byte: u8) -> bool
    ensures { result ≡ is_white_space byte }
{
    byte == b' ' || (9 <= byte && byte <= 13)
}

/// Counts a word, if it is not empty.
fn count_word<R: Wait>(
    rt: &R,
    alloc: Global,
    counts: &Shared<WordCounts>,
    caller: &mut Caller<WordCounts>,
    word: &[u8],
) -> Result<(), AllocError>
    requires caller { IsCallerOf counts.now caller.old }
    requires sound { is_lost caller.old ≡ false }
    ensures own { IsCallerOf counts.now caller.new × (number_of caller.new ≡ number_of caller.old) }
    ensures stays { OnOk result (is_lost caller.new ≡ false) }
    ensures called { OnOk result (map (λ e. e.op.items) (made caller.new) ≡ map (λ e. e.op.items) (made caller.old) ++ ended word.now) }
{
    if word.is_empty() {
        return Ok(());
    }
    let word = Vec::from_slice(alloc, word)?;
    match counts.call(rt, caller, word) {
        Ok(_) => Ok(()),
        Err(_) => Err(AllocError),
    }
}

/// Counts the words of a text.
fn count_words<R: Wait>(
    rt: &R,
    alloc: Global,
    counts: &Shared<WordCounts>,
    caller: Caller<WordCounts>,
    text: &[u8],
) -> Result<Caller<WordCounts>, AllocError>
    requires caller { IsCallerOf counts.now caller × (is_lost caller ≡ false) × (made caller ≡ []) }
    ensures caller { IfOk result (λ back. IsCallerOf counts.now back × (number_of back ≡ number_of caller)) }
    ensures counted { IfOk result (λ back. map (λ e. e.op.items) (made back) ≡ words_of text.now) }
{
    let mut caller = caller;
    let mut start = 0;
    for i in 0..text.len() {
        if is_space(text[i]) {
            count_word(rt, alloc, counts, &mut caller, &text[start..i])?;
            start = i + 1;
        }
    }
    count_word(rt, alloc, counts, &mut caller, &text[start..text.len()])?;
    Ok(caller)
}

/// Counts the words of a part.
fn count_part<R: Wait>(
    rt: &R,
    alloc: Global,
    counts: &Shared<WordCounts>,
    part: Part,
    text: &[u8],
) -> Result<Caller<WordCounts>, AllocError>
    requires caller { IsCallerOf counts.now part.caller × (is_lost part.caller ≡ false) × (made part.caller ≡ []) }
    requires part { (part.from ≤ part.to) × (part.to ≤ length text.now) }
    ensures caller { IfOk result (λ back. IsCallerOf counts.now back × (number_of back ≡ number_of part.caller)) }
    ensures counted { IfOk result (λ back. map (λ e. e.op.items) (made back) ≡ words_of (between part.from part.to text.now)) }
{
    let Part { caller, from, to } = part;
    count_words(rt, alloc, counts, caller, &text[from..to])
}

/// Each part is counted in a thread of its own.
fn count_each<R: Wait + Threads + Sync>(
    rt: &R,
    alloc: Global,
    counts: &Shared<WordCounts>,
    parts: Vec<Part>,
    text: &[u8],
) -> Result<Vec<Result<Caller<WordCounts>, AllocError>>, AllocError>
    requires parts { (i : ℕ) (p : PartOf) → i < length parts.items → p ≡ slice_index_or parts.items i p
        → IsCallerOf counts.now p.caller × (is_lost p.caller ≡ false) × (made p.caller ≡ []) × (p.from ≤ p.to) × (p.to ≤ length text.now) }
    ensures count { IfOk result (λ backs. length backs.items ≡ length parts.items) }
    ensures each { IfOk result (λ backs. (i : ℕ) (p : PartOf) (b : _) → i < length parts.items → p ≡ slice_index_or parts.items i p → b ≡ slice_index_or backs.items i b
        → IfOk b (λ back. IsCallerOf counts.now back × (number_of back ≡ number_of p.caller) × (map (λ e. e.op.items) (made back) ≡ words_of (between p.from p.to text.now)))) }
{
    thread::map_vec(
        rt,
        parts,
        &|part: Part| count_part(rt, alloc, counts, part, text),
    )
}

/// The callers, if each has counted its part.
fn all_of(
    alloc: Global,
    backs: Vec<Result<Caller<WordCounts>, AllocError>>,
) -> Result<Vec<Caller<WordCounts>>, AllocError>
    ensures { IfOk result (λ callers. backs.items ≡ map Ok callers.items) }
{
    let mut callers = Vec::with_capacity(alloc, backs.len())?;
    for back in backs {
        let caller = back?;
        callers.push(caller)?;
    }
    Ok(callers)
}

/// Counts the words of a text in so many threads, of which each takes a part and calls the shared map for each word.
///
/// Memory: proportional to the different words.
pub fn count_in_threads<R: Wait + Threads + Sync>(
    rt: &R,
    alloc: Global,
    text: &[u8],
    threads: usize,
) -> Result<WordCounts, AllocError>
    requires threads { (1 ≤ threads) × (threads ≤ MOST_WORKERS) }
    ensures { IfOk result (λ counts. entries_of counts ≡ counts_of text.now) }
{
    let (counts, callers) = Shared::share(alloc, WordCounts::new(alloc), threads)?;
    let parts = parts_of(alloc, callers, text)?;
    let backs = count_each(rt, alloc, &counts, parts, text)?;
    let callers = all_of(alloc, backs)?;
    match counts.close(callers) {
        Some(counts) => Ok(counts),
        None => Err(AllocError),
    }
}
