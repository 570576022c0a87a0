//! The rule of the table, and what each step tells its seat.
ghost use Rattle.shared_calls.specs.Rule.{Keeps, first_view};
ghost use Rattle.shared_calls.specs.Plays.{first_caller, other_callers, note_of, hearing, gathering, spent_view};
ghost use Rattle.shared_calls.specs.Plays.{Enrolls, Posts, Leaves, Wins, Looks, Publishes, Answers, Releases, Loses, Hears, Retires};

use crate::combined::Combined;
use crate::view::{Slot, View};
use atomic_table::{Join, Play, Split, TableRule};
use std::marker::PhantomData;

/// The rule, which `atomic_table` keeps at every moment. Its key is the number of callers.
pub struct CallRule<T> {
    structure: PhantomData<T>,
}

impl<T: Combined> TableRule<Slot<T, T::Op, T::Reply>, View<T::Op, T::Reply>, u64> for CallRule<T> {
    ghost holds = { Keeps T.object T.content T.fails };

    ghost first = { first_view };
}

/// Splits the first caller off.
pub struct FirstCaller;

impl<O, R> Split<View<O, R>> for FirstCaller {
    ghost left = { other_callers };

    ghost right = { first_caller };
}

/// Splits a note off.
pub struct Telling;

impl<O, R> Split<View<O, R>> for Telling {
    ghost left = { λ v. v };

    ghost right = { note_of };
}

/// Takes in a note.
pub struct Hearing;

impl<O, R> Join<View<O, R>> for Hearing {
    ghost both = { hearing };

    ghost spent = { spent_view };
}

/// Leaves the slots of a caller behind.
pub struct Parting;

impl<O, R> Split<View<O, R>> for Parting {
    ghost left = { λ v. spent_view };

    ghost right = { λ v. v };
}

/// Takes in the seat of callers that have retired.
pub struct Gathering;

impl<O, R> Join<View<O, R>> for Gathering {
    ghost both = { gathering };

    ghost spent = { spent_view };
}

/// A caller takes its slot.
pub struct Enroll;

impl<T, O, R> Play<Slot<T, O, R>, View<O, R>> for Enroll {
    ghost then = { Enrolls };
}

/// A caller posts its call.
pub struct Post;

impl<T, O, R> Play<Slot<T, O, R>, View<O, R>> for Post {
    ghost then = { Posts };
}

/// A caller takes its reply, if it is there.
pub struct Leave<T> {
    structure: PhantomData<T>,
}

impl<T: Combined> Play<Slot<T, T::Op, T::Reply>, View<T::Op, T::Reply>> for Leave<T> {
    ghost then = { Leaves T.object };
}

/// A caller wins the flag, if it is free.
pub struct Win<T> {
    structure: PhantomData<T>,
}

impl<T: Combined> Play<Slot<T, T::Op, T::Reply>, View<T::Op, T::Reply>> for Win<T> {
    ghost then = { Wins T.object T.content T.fails };
}

/// The holder of the flag looks at a caller, and takes its call, if one is posted.
pub struct Look;

impl<T, O, R> Play<Slot<T, O, R>, View<O, R>> for Look {
    ghost then = { Looks };
}

/// The batch counts as served.
pub struct Publish<T> {
    structure: PhantomData<T>,
}

impl<T: Combined> Play<Slot<T, T::Op, T::Reply>, View<T::Op, T::Reply>> for Publish<T> {
    ghost then = { Publishes T.object T.content };
}

/// The holder answers a caller.
pub struct Answer;

impl<T, O, R> Play<Slot<T, O, R>, View<O, R>> for Answer {
    ghost then = { Answers };
}

/// The holder gives the flag back.
pub struct Release;

impl<T, O, R> Play<Slot<T, O, R>, View<O, R>> for Release {
    ghost then = { Releases };
}

/// The holder marks the structure as lost.
pub struct Lose;

impl<T, O, R> Play<Slot<T, O, R>, View<O, R>> for Lose {
    ghost then = { Loses };
}

/// A caller retires.
pub struct Retire;

impl<T, O, R> Play<Slot<T, O, R>, View<O, R>> for Retire {
    ghost then = { Retires };
}

/// A caller sees all calls so far, with those of the note that it took in.
pub struct Hear<T> {
    structure: PhantomData<T>,
}

impl<T: Combined> Play<Slot<T, T::Op, T::Reply>, View<T::Op, T::Reply>> for Hear<T> {
    ghost then = { Hears T.object };
}
