//! The calls of shared objects: posting one, winning the flag, taking, publishing and answering a batch, and leaving.
ghost use Rattle.std.specs.Prelude.{List, ◌≡◌, ◌≢◌, ℕ, ◌+◌, ◌<◌, ◌≤◌, true, false, None, Some, IfSome, IfNone};
ghost use Rattle.batch_history.specs.declared.batch.Entry.{Entry};
ghost use Rattle.table_rule.specs.CoreWords.{Started, Post as PostOf};
ghost use Rattle.core_model.specs.Measure.{call_count};
ghost use Rattle.core_model.specs.Operations.{op_of, place_of, IsReceipt};
ghost use Rattle.table_rule.specs.declared.view.HoldView.{HoldView};
ghost use Rattle.table_rule.specs.declared.view.Miss.{Miss};
ghost use Rattle.table_rule.specs.declared.slot.OpRecord.{OpRecord as CallRecord};
ghost use Rattle.table_rule.specs.DueActs.{IsPostDue};
ghost use Rattle.table_rule.specs.Shows.{record_in, among, entry_of, IsPrefix};
ghost use Rattle.core_model.specs.Entries.{StandsAt};
ghost use Rattle.core_table.specs.Passes.{IsPassOf, IsMissOf, job_in, job_in_with, next_in, pass_view, view, IsTrapped};
ghost use Rattle.table_rule.specs.Batches.{IsLookDue, IsPublishDue, IsReleaseDue};
ghost use Rattle.table_rule.specs.Passes.{call_by, winning, refusing_win, leaving, refusing_leave, releasing, taking, skipping, publishing, answering};
ghost use Rattle.table_rule.specs.Views.{with_step, with_miss, with_post};
ghost use Rattle.table_rule.specs.Words.{flag_at};
ghost use Rattle.table_rule.specs.Plays.{IsNewCall};

use crate::rotation::{index_of, rotate_by};
use crate::table::{CoreTable, Pass};
use batch_history::Batch;
use core_model::{CallState, Receipt};
use launch_batch::Shop;
use leaf_work::WorkBrand;
use table_rule::plays::{
    Answer, CheckRoom, Leave, Post, Publish, ReleaseBoth, ReleaseShop, Take, Win,
};
use table_rule::{EXECUTING, FREE, OpRecord, PENDING, SERVED, Slot};

impl<B: WorkBrand> CoreTable<B> {
    /// Posts the call of the started leaf. The call of a leaf with a source has the value that `source_value` told. The
    /// pass is trapped from then until its `leave` succeeds.
    pub fn post(&self, pass: &mut Pass, call: OpRecord)
        requires pass { IsPassOf self.now pass.old }
        requires due { IsPostDue (job_in self.now).source (pass_view pass.old).told
            (next_in self.now (pass_view pass.old)) call }
        ensures pass { IsPassOf self.now pass.new }
        ensures posted { (node : ℕ) × (start : ℕ) × ((view pass.old).own.task ≡ Started node start)
            × (view pass.new ≡ with_post call (PostOf node start) (view pass.old)) }
    {
        self.laws_hold();
        let shared = &self.table.shared;
        let at = pass.worker as usize;
        drop(shared.exchange(&mut pass.seat, at, Slot::Record(call)));
        shared.store::<Post>(&mut pass.seat, at, PENDING);
        pass.call = CallState::Out;
    }

    /// Tries to win the flag, which makes this worker the combiner. Returns the shop, or `None` if the flag is held.
    pub fn win(&self, pass: &mut Pass) -> Option<Shop>
        requires pass { IsPassOf self.now pass.old }
        requires trapped { IsTrapped pass.old }
        ensures pass { IsPassOf self.now pass.new }
        ensures won { IfSome result (λ shop.
            (view pass.new ≡ with_step (winning shop) (view pass.old))
            × IsPrefix (view pass.old).own.book_seen shop) }
        ensures lost { IfNone result ((miss : Miss)
            × ((miss.found ≢ 0) × IsMissOf B.work self.now pass.old (flag_at (job_in self.now).workers) miss)
            × (view pass.new ≡ with_miss miss refusing_win (view pass.old))) }
    {
        self.laws_hold();
        let shared = &self.table.shared;
        let layout = self.layout();
        let at = layout.flag();
        let mine = pass.worker as u64 + 1;
        if shared.compare_exchange::<Win<B>>(&mut pass.seat, at, 0, mine) != 0 {
            return None;
        }
        let home = layout.shop_slot();
        let slot = shared.exchange(&mut pass.seat, home, Slot::Vacant);
        pass.seat.turn();
        pass.published = false;
        match slot {
            Slot::Shop(shop) => Some(shop),
            _ => unreachable!(),
        }
    }

    /// Tries to leave with the receipt, which is of the posted call, with its operation under the book that the pass
    /// has then seen. `None`: the call is not served yet.
    pub fn leave(&self, pass: &mut Pass) -> Option<Receipt>
        requires pass { IsPassOf self.now pass.old }
        requires trapped { IsTrapped pass.old }
        requires idle { (view pass.old).own.hold ≡ None }
        ensures pass { IsPassOf self.now pass.new }
        ensures left { IfSome result (λ receipt.
            (call : CallRecord) × ((view pass.old).own.posted ≡ Some call)
            × (book : List (List Entry)) × (view pass.new
            ≡ with_step (leaving call receipt book) (view pass.old))
            × IsPrefix (view pass.old).own.book_seen book
            × (op_of (job_in_with B.work self.now) book call.leaf ≡ Some call.op)
            × StandsAt book receipt.batch receipt.place
            (entry_of (view pass.new).own.worker (record { call = call; receipt = receipt }))
            × ((view pass.old).own.before ≤ receipt.batch)
            × ((since : ℕ) → (view pass.old).own.after ≡ Some since → receipt.batch ≤ since + 1)) }
        ensures stays { IfNone result ((miss : Miss)
            × ((miss.found ≢ SERVED) × IsMissOf B.work self.now pass.old (view pass.old).own.worker miss)
            × (view pass.new ≡ with_miss miss refusing_leave (view pass.old))) }
    {
        self.laws_hold();
        let shared = &self.table.shared;
        let at = pass.worker as usize;
        let seen = shared.compare_exchange::<Leave<B>>(&mut pass.seat, at, SERVED, FREE);
        if seen != SERVED {
            return None;
        }
        let Slot::Receipt(receipt) = shared.exchange(&mut pass.seat, at, Slot::Vacant) else {
            unreachable!()
        };
        pass.call = CallState::Got(receipt);
        Some(receipt)
    }

    /// Looks at worker `u`, the next in order, and takes its call if one is pending, with its operation under the
    /// hold's book.
    pub fn take(&self, pass: &mut Pass, u: u32) -> Option<OpRecord>
        requires pass { IsPassOf self.now pass.old }
        requires due { (h : HoldView) × ((view pass.old).own.hold ≡ Some h)
            × IsLookDue (job_in self.now).workers u h }
        ensures pass { IsPassOf self.now pass.new }
        ensures took { IfSome result (λ call.
            (h : HoldView) × ((view pass.old).own.hold ≡ Some h)
            × IsNewCall (call_count (job_in self.now)) h call
            × (op_of (job_in_with B.work self.now) h.book call.leaf ≡ Some call.op)
            × (view pass.new ≡ with_step (taking (call_by u call)) (view pass.old))) }
        ensures passed { IfNone result ((miss : Miss)
            × ((miss.found ≢ PENDING) × IsMissOf B.work self.now pass.old u miss)
            × (view pass.new ≡ with_miss miss (skipping u miss.found) (view pass.old))) }
    {
        self.laws_hold();
        let shared = &self.table.shared;
        let seen = shared.compare_exchange::<Take<B>>(
            &mut pass.seat,
            u as usize,
            PENDING,
            EXECUTING,
        );
        if seen != PENDING {
            return None;
        }
        let slot = shared.exchange(&mut pass.seat, u as usize, Slot::Vacant);
        pass.seat.turn();
        pass.owed.push_reserved(u);
        match slot {
            Slot::Record(call) => Some(call),
            _ => unreachable!(),
        }
    }

    /// Appends the batch to the book and increments the batch count. The book returns to its slot.
    pub fn publish(&self, pass: &mut Pass, batch: Batch)
        requires pass { IsPassOf self.now pass.old }
        requires due { (h : HoldView) × ((view pass.old).own.hold ≡ Some h)
            × IsPublishDue (job_in self.now).workers h batch }
        ensures pass { IsPassOf self.now pass.new }
        ensures published { view pass.new ≡ with_step (publishing batch) (view pass.old) }
    {
        self.laws_hold();
        let shared = &self.table.shared;
        let layout = self.layout();
        let at = layout.batch_count();
        let home = layout.book_slot();
        shared.load::<CheckRoom>(&mut pass.seat, at);
        let Slot::Book(mut book) = shared.exchange(&mut pass.seat, home, Slot::Vacant) else {
            unreachable!()
        };
        book.append(batch);
        drop(shared.exchange(&mut pass.seat, home, Slot::Book(book)));
        shared.fetch_add::<Publish>(&mut pass.seat, at, 1);
        pass.seat.turn();
        pass.published = true;
    }

    /// Hands worker `u` its receipt. The owed workers may be answered in any order.
    pub fn answer(&self, pass: &mut Pass, u: u32, receipt: Receipt)
        requires pass { IsPassOf self.now pass.old }
        requires due { (h : HoldView) × (call : CallRecord) × ((view pass.old).own.hold ≡ Some h)
            × (h.published ≡ true) × (record_in h.taken u ≡ Some call) × (among h.answered u ≡ false)
            × IsReceipt (place_of h.book call.leaf) receipt }
        ensures pass { IsPassOf self.now pass.new }
        ensures answered { view pass.new ≡ with_step (answering u receipt) (view pass.old) }
    {
        self.laws_hold();
        let shared = &self.table.shared;
        let at = index_of(pass.owed.as_slice(), u);
        let behind = pass.owed.len() - at;
        rotate_by(&mut pass.seat, at);
        drop(shared.exchange(&mut pass.seat, u as usize, Slot::Receipt(receipt)));
        shared.store::<Answer>(&mut pass.seat, u as usize, SERVED);
        rotate_by(&mut pass.seat, behind);
        pass.owed.remove(at);
    }

    /// Releases the flag, after a look at every worker and an answer to every call taken.
    pub fn release(&self, pass: &mut Pass, shop: Shop)
        requires pass { IsPassOf self.now pass.old }
        requires due { (h : HoldView) × ((view pass.old).own.hold ≡ Some h)
            × IsReleaseDue (job_in self.now).workers h × (shop ≡ h.book) }
        ensures pass { IsPassOf self.now pass.new }
        ensures released { view pass.new ≡ with_step releasing (view pass.old) }
    {
        if pass.published {
            self.release_shop(pass, shop)
        } else {
            self.release_both(pass, shop)
        }
    }

    /// Releases a hold that has published: the shop returns to its slot.
    fn release_shop(&self, pass: &mut Pass, shop: Shop)
        requires pass { IsPassOf self.now pass.old }
        requires published { pass.old.published ≡ true }
        requires due { (h : HoldView) × ((view pass.old).own.hold ≡ Some h)
            × IsReleaseDue (job_in self.now).workers h × (shop ≡ h.book) }
        ensures pass { IsPassOf self.now pass.new }
        ensures released { view pass.new ≡ with_step releasing (view pass.old) }
    {
        self.laws_hold();
        let shared = &self.table.shared;
        let layout = self.layout();
        let at = layout.flag();
        let home = layout.shop_slot();
        drop(shared.exchange(&mut pass.seat, home, Slot::Shop(shop)));
        shared.store::<ReleaseShop>(&mut pass.seat, at, 0);
    }

    /// Releases a hold that has not published: the shop and the book return to their slots.
    fn release_both(&self, pass: &mut Pass, shop: Shop)
        requires pass { IsPassOf self.now pass.old }
        requires unpublished { pass.old.published ≡ false }
        requires due { (h : HoldView) × ((view pass.old).own.hold ≡ Some h)
            × IsReleaseDue (job_in self.now).workers h × (shop ≡ h.book) }
        ensures pass { IsPassOf self.now pass.new }
        ensures released { view pass.new ≡ with_step releasing (view pass.old) }
    {
        self.laws_hold();
        let shared = &self.table.shared;
        let layout = self.layout();
        let at = layout.flag();
        let home = layout.shop_slot();
        pass.seat.turn();
        drop(shared.exchange(&mut pass.seat, home, Slot::Shop(shop)));
        shared.store::<ReleaseBoth>(&mut pass.seat, at, 0);
    }
}
