//! The invariant of a deque, and what its caller learns from each of the three operations.
ghost use Rattle.std.specs.Prelude.{◌≡◌, ◌+◌, ◌++◌, true, false};
ghost use Rattle.two_deques.specs.Rule.{owner_part, thief_part, ObeysRule, FoundAtMost};

use crossbeam_deque::protocol::{Outcome, Protocol};
use std::collections::LinkedList;

/// One worker's knowledge of a deque, for contracts only. The owner knows how many pushes it made and the tasks
/// that it pushed and has not popped; a thief knows the tasks that it stole.
pub struct Part<T> {
    pub owns: bool,
    pub pushes: u64,
    pub tasks: LinkedList<T>,
}

/// The invariant of a deque, which `crossbeam_deque` maintains at every moment.
pub struct DequeRule;

impl<T> Protocol<T, Part<T>> for DequeRule {
    ghost use Rattle.std.specs.Prelude.{[]};
    ghost use Rattle.two_deques.specs.Rule.{owner_part, thief_part, ObeysRule};

    ghost holds = { λ items parts. ObeysRule items parts };

    ghost first = { owner_part 0 [] };

    ghost guest = { thief_part [] };
}

/// A push appends the task to the owner's list, and counts one push.
pub struct Pushed;

impl<T> Outcome<T, Part<T>> for Pushed {
    ghost then = { λ v xs w. w ≡ record v { pushes = v.pushes + 1; tasks = v.tasks ++ xs } };
}

/// A pop removes the last task of the owner's list.
pub struct Popped;

impl<T> Outcome<T, Part<T>> for Popped {
    ghost then = { λ v xs w. v ≡ record w { tasks = w.tasks ++ xs } };

    ghost empty = { λ v. FoundAtMost 0 true v.tasks };
}

/// A steal appends the task to the thief's list.
pub struct Stolen;

impl<T> Outcome<T, Part<T>> for Stolen {
    ghost then = { λ v xs w. w ≡ record v { tasks = v.tasks ++ xs } };

    ghost empty = { λ v. FoundAtMost 1 false v.tasks };
}
