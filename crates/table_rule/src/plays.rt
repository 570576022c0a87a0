//! The rule that a running table keeps, and its kinds of step. Each kind has a play, which relates the seat before a
//! step to the seat after it: what the step tells its pass, and which slots it moves (`specs/Plays.antt`). Where a play
//! speaks of the job, its type names what the leaves of work compute.
ghost use Rattle.table_rule.specs.Shows.{ShownWith};
ghost use Rattle.table_rule.specs.Views.{first_view, pass_of, rest_of};
ghost use Rattle.table_rule.specs.Plays.{claimed, strayed, drawn, opened, kept, finished, arrived, looked_at_root, heard, enrolled, posted, won, took, admitted, published, answered, released_shop, released_both, left, stopped_all, looked_at_stop, looked_at_value};

use crate::slot::Slot;
use crate::view::View;
use atomic_table::{Play, Split, TableRule};
use core_model::Setting;
use leaf_work::WorkBrand;
use std::marker::PhantomData;

/// The rule of the running table: its words, slots and views show a state of the scheduler's core (`ShownWith`).
/// A step is made only with a proof that it keeps this rule.
///
/// `B` says what the leaves of work compute.
pub struct SchedulerRule<B: WorkBrand> {
    of: PhantomData<B>,
}

impl<B: WorkBrand> TableRule<Slot, View, Setting> for SchedulerRule<B> {
    ghost holds = { ShownWith B.work };

    ghost first = { first_view };
}

/// A try to claim a node.
pub struct Claim<B: WorkBrand> {
    of: PhantomData<B>,
}

impl<B: WorkBrand> Play<Slot, View> for Claim<B> {
    ghost then = { claimed B.work };
}

/// A claim of a number past the last node, which is refused.
pub struct ClaimOutOfRange<B: WorkBrand> {
    of: PhantomData<B>,
}

impl<B: WorkBrand> Play<Slot, View> for ClaimOutOfRange<B> {
    ghost then = { strayed B.work };
}

/// The draw of a tick, which starts or ends a leaf.
pub struct DrawTick;

impl Play<Slot, View> for DrawTick {
    ghost then = { drawn };
}

/// The opening of the next side of a block.
pub struct Open;

impl Play<Slot, View> for Open {
    ghost then = { opened };
}

/// The keeping of a leaf's value.
pub struct Keep;

impl Play<Slot, View> for Keep {
    ghost then = { kept };
}

/// The marking of a leaf or a block as done.
pub struct Finish;

impl Play<Slot, View> for Finish {
    ghost then = { finished };
}

/// The arrival of a side at its parallel block.
pub struct Arrive;

impl Play<Slot, View> for Arrive {
    ghost then = { arrived };
}

/// A look whether the root is done.
pub struct LookAtRoot<B: WorkBrand> {
    of: PhantomData<B>,
}

impl<B: WorkBrand> Play<Slot, View> for LookAtRoot<B> {
    ghost then = { looked_at_root B.work };
}

/// A look at the number of published batches.
pub struct ReadBatchCount;

impl Play<Slot, View> for ReadBatchCount {
    ghost then = { heard };
}

/// Splits the seat of the lowest worker number off the first seat.
pub struct SplitSeat;

impl Split<View> for SplitSeat {
    ghost left = { rest_of };

    ghost right = { pass_of };
}

/// The first step of a pass: it takes its worker's record slot from the table.
pub struct Enrol;

impl Play<Slot, View> for Enrol {
    ghost then = { enrolled };
}

/// The posting of a call, in the worker's record slot.
pub struct Post;

impl Play<Slot, View> for Post {
    ghost then = { posted };
}

/// A try for the flag. The winner takes the shop and the book from the table.
pub struct Win<B: WorkBrand> {
    of: PhantomData<B>,
}

impl<B: WorkBrand> Play<Slot, View> for Win<B> {
    ghost then = { won B.work };
}

/// A look at the next worker, which takes its call if that is pending.
pub struct Take<B: WorkBrand> {
    of: PhantomData<B>,
}

impl<B: WorkBrand> Play<Slot, View> for Take<B> {
    ghost then = { took B.work };
}

/// A look at the batch count before a publish: the book has room, and stays a history with the batch.
pub struct CheckRoom;

impl Play<Slot, View> for CheckRoom {
    ghost then = { admitted };
}

/// The publishing of a batch. The book returns to the table, with the batch.
pub struct Publish;

impl Play<Slot, View> for Publish {
    ghost then = { published };
}

/// The answer to a worker whose call was taken: a receipt, in its record slot.
pub struct Answer;

impl Play<Slot, View> for Answer {
    ghost then = { answered };
}

/// The release of the flag after a publish. The shop returns to the table.
pub struct ReleaseShop;

impl Play<Slot, View> for ReleaseShop {
    ghost then = { released_shop };
}

/// The release of the flag without a publish. The shop and the book return to the table.
pub struct ReleaseBoth;

impl Play<Slot, View> for ReleaseBoth {
    ghost then = { released_both };
}

/// A try to leave with the receipt of the posted call.
pub struct Leave<B: WorkBrand> {
    of: PhantomData<B>,
}

impl<B: WorkBrand> Play<Slot, View> for Leave<B> {
    ghost then = { left B.work };
}

/// The setting of the stop word.
pub struct Stop<B: WorkBrand> {
    of: PhantomData<B>,
}

impl<B: WorkBrand> Play<Slot, View> for Stop<B> {
    ghost then = { stopped_all B.work };
}

/// A look at the value of the source of the task's leaf.
pub struct LookAtValue;

impl Play<Slot, View> for LookAtValue {
    ghost then = { looked_at_value };
}

/// A look whether the stop word is set.
pub struct LookAtStop<B: WorkBrand> {
    of: PhantomData<B>,
}

impl<B: WorkBrand> Play<Slot, View> for LookAtStop<B> {
    ghost then = { looked_at_stop B.work };
}
