//! A worker's access to the deques of one kind of task.
ghost use Rattle.std.specs.Prelude.{◌≡◌, ◌<◌, ◌≤◌, true, false};
ghost use Rattle.crossbeam_deque.specs.Handles.{view, worker_view, worker_flavor, worker_index};

mod calls;
pub(crate) mod opening;

use crate::rule::{DequeRule, Part};
use crossbeam_deque::{Pass, Worker};
use std::alloc::Global;

/// A thief's access to one deque: its pass, and how many of its steals there found nothing (saturating).
#[derive(Drop)]
pub struct Reach<T> {
    pub(crate) pass: Pass<T, Part<T>>,
    pub(crate) failed_steals: u64,
    ghost thief: { (view pass).owns ≡ false },
}

/// One worker's ends of all deques of one kind: the owner's end of its own deque, and a `Reach` into every
/// deque. The reach into its own deque is never used; with it, the index of a reach is the number of the worker
/// that owns the deque.
#[derive(Drop)]
pub struct Ends<T> {
    pub(crate) own: Worker<T, Global, Part<T>, DequeRule>,
    pub(crate) empty_pops: u64,
    pub(crate) reaches: Vec<Reach<T>>,
    ghost owner: { (worker_view own).owns ≡ true },
    ghost newest: { 0 < worker_flavor own },
    ghost counted: { worker_index own ≤ (worker_view own).pushes },
}
