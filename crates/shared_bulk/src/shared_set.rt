//! A set whose calls carry many keys, which threads share, and whose callers help each other.
ghost use Rattle.std.specs.Prelude.{◌≡◌, ℕ, ◌<◌, ◌≤◌, false, true, length, slice_index_or, IfOk, IfErr, IfSome, IfNone, OnSome, OnOk};
ghost use Rattle.piece_board.specs.Boards.{desk_view, IsDeskOf};
ghost use Rattle.piece_board.specs.Desks.{fresh_desk};
ghost use Rattle.shared_calls.specs.Logs.{state_after};
ghost use Rattle.shared_calls.specs.Callers.{IsServed, IsUnserved};
ghost use Rattle.shared_calls.specs.Views.{IsNewCaller, IsCallerOf, IfRefused, IfLost, number_of_callers, number_of, made, seen, is_lost};
ghost use Rattle.shared_calls.specs.Closing.{AreCallersOf, AreAllCalls, SomeIsLost, NoneIsLost};
ghost use Rattle.shared_collections.specs.Bulks.{asked, bulk_set};
ghost use Rattle.limits.specs.declared.TheConstants.{MOST_BULK_KEYS, MOST_WORKERS};

use crate::bulk::{BatchRest, BulkInPieces};
use bulk_calls::{BulkKind, BulkOp, BulkSet, Replies};
use piece_board::{Board, Desk};
use shared_calls::{Caller, Failed, Shared};
use shared_collections::bulk::asked;
use shared_pieces::{PieceHelper, Pieces, share_in_pieces};
use std::alloc::{AllocError, Global};
use std::marker::PhantomData;
use std::sync::Wait;

/// A set of numbers below 2^32 that 1 to `MOST_WORKERS` callers share, and the board on which they hand out the pieces
/// of its batches. A call carries up to `MOST_BULK_KEYS` keys. Notes go by `shared`.
///
/// `rest` only names a type that the prover must be able to read where a thread is handed the set.
pub struct SharedBulkSetInPieces {
    pub shared: Shared<BulkInPieces>,
    pub board: Board<Pieces<BulkInPieces>>,
    rest: PhantomData<BatchRest>,
}

impl Drop for SharedBulkSetInPieces {
    fn drop(self) {
        let SharedBulkSetInPieces {
            shared,
            board,
            rest: _,
        } = self;
        drop(shared);
        drop(board);
    }
}

/// A caller, and the desk of its number, of which its thread makes a `PieceHelper`.
pub type CallerWithDesk = (Caller<BulkInPieces>, Desk<Pieces<BulkInPieces>>);

impl SharedBulkSetInPieces {
    /// The empty set, and its callers, each with its desk.
    ///
    /// Memory: proportional to the callers.
    pub fn new(
        alloc: Global,
        callers: usize,
    ) -> Result<(SharedBulkSetInPieces, Vec<CallerWithDesk>), AllocError>
        requires count { (1 ≤ callers) × (callers ≤ MOST_WORKERS) }
        ensures all { IfOk result (λ r. (number_of_callers r.0.shared ≡ callers) × (length r.1.items ≡ callers)) }
        ensures callers { IfOk result (λ r. (k : ℕ) (s : _) → k < callers → s ≡ slice_index_or r.1.items k s → IsNewCaller r.0.shared k s.0) }
        ensures desks { IfOk result (λ r. (k : ℕ) (s : _) → k < callers → s ≡ slice_index_or r.1.items k s → IsDeskOf r.0.board s.1 × (desk_view s.1 ≡ fresh_desk k)) }
    {
        let set = BulkSet::new(alloc)?;
        let (shared, board, all) = share_in_pieces(alloc, BulkInPieces { set }, callers)?;
        let set = SharedBulkSetInPieces {
            shared,
            board,
            rest: PhantomData,
        };
        Ok((set, all))
    }

    /// Inserts the keys, one after another. Answers of each whether it was new.
    ///
    /// Memory: proportional to the callers; where this caller serves a batch or runs a piece, what the set takes for it.
    pub fn insert_all<R: Wait>(
        &self,
        rt: &R,
        helper: &mut PieceHelper<'_, BulkInPieces>,
        caller: &mut Caller<BulkInPieces>,
        keys: &[u32],
    ) -> Result<Replies, Failed<BulkOp, Replies>>
        requires caller { IsCallerOf self.now.shared caller.old }
        requires few { length keys.now ≤ MOST_BULK_KEYS }
        requires sound { is_lost caller.old ≡ false }
        ensures own { IsCallerOf self.now.shared caller.new × (number_of caller.new ≡ number_of caller.old) }
        ensures served { IfOk result (λ answers. IsServed bulk_set (number_of caller.old) (made caller.old) (seen caller.old) (asked BulkKind.Insert keys.now) answers (made caller.new) (seen caller.new)) }
        ensures stays { OnOk result (is_lost caller.new ≡ false) }
        ensures refused { IfErr result (IfRefused (λ same. (same ≡ asked BulkKind.Insert keys.now) × (is_lost caller.new ≡ false) × (made caller.new ≡ made caller.old) × (seen caller.new ≡ seen caller.old))) }
        ensures lost { IfErr result (IfLost (λ last. is_lost caller.new ≡ true)) }
        ensures last { IfErr result (IfLost (λ last. IfSome last (λ reply. IsServed bulk_set (number_of caller.old) (made caller.old) (seen caller.old) (asked BulkKind.Insert keys.now) reply (made caller.new) (seen caller.new)))) }
        ensures unserved { IfErr result (IfLost (λ last. IfNone last (IsUnserved bulk_set (number_of caller.old) (made caller.old) (seen caller.old) (made caller.new) (seen caller.new)))) }
    {
        self.shared
            .call_with(rt, helper, caller, asked(BulkKind::Insert, keys))
    }

    /// Removes the keys, one after another. Answers of each whether it was there.
    ///
    /// Memory: proportional to the callers; where this caller serves a batch or runs a piece, what the set takes for it.
    pub fn remove_all<R: Wait>(
        &self,
        rt: &R,
        helper: &mut PieceHelper<'_, BulkInPieces>,
        caller: &mut Caller<BulkInPieces>,
        keys: &[u32],
    ) -> Result<Replies, Failed<BulkOp, Replies>>
        requires caller { IsCallerOf self.now.shared caller.old }
        requires few { length keys.now ≤ MOST_BULK_KEYS }
        requires sound { is_lost caller.old ≡ false }
        ensures own { IsCallerOf self.now.shared caller.new × (number_of caller.new ≡ number_of caller.old) }
        ensures served { IfOk result (λ answers. IsServed bulk_set (number_of caller.old) (made caller.old) (seen caller.old) (asked BulkKind.Remove keys.now) answers (made caller.new) (seen caller.new)) }
        ensures stays { OnOk result (is_lost caller.new ≡ false) }
        ensures refused { IfErr result (IfRefused (λ same. (same ≡ asked BulkKind.Remove keys.now) × (is_lost caller.new ≡ false) × (made caller.new ≡ made caller.old) × (seen caller.new ≡ seen caller.old))) }
        ensures lost { IfErr result (IfLost (λ last. is_lost caller.new ≡ true)) }
        ensures last { IfErr result (IfLost (λ last. IfSome last (λ reply. IsServed bulk_set (number_of caller.old) (made caller.old) (seen caller.old) (asked BulkKind.Remove keys.now) reply (made caller.new) (seen caller.new)))) }
        ensures unserved { IfErr result (IfLost (λ last. IfNone last (IsUnserved bulk_set (number_of caller.old) (made caller.old) (seen caller.old) (made caller.new) (seen caller.new)))) }
    {
        self.shared
            .call_with(rt, helper, caller, asked(BulkKind::Remove, keys))
    }

    /// Answers of each key whether it is there.
    ///
    /// Memory: proportional to the callers; where this caller serves a batch or runs a piece, what the set takes for it.
    pub fn find_all<R: Wait>(
        &self,
        rt: &R,
        helper: &mut PieceHelper<'_, BulkInPieces>,
        caller: &mut Caller<BulkInPieces>,
        keys: &[u32],
    ) -> Result<Replies, Failed<BulkOp, Replies>>
        requires caller { IsCallerOf self.now.shared caller.old }
        requires few { length keys.now ≤ MOST_BULK_KEYS }
        requires sound { is_lost caller.old ≡ false }
        ensures own { IsCallerOf self.now.shared caller.new × (number_of caller.new ≡ number_of caller.old) }
        ensures served { IfOk result (λ answers. IsServed bulk_set (number_of caller.old) (made caller.old) (seen caller.old) (asked BulkKind.Find keys.now) answers (made caller.new) (seen caller.new)) }
        ensures stays { OnOk result (is_lost caller.new ≡ false) }
        ensures refused { IfErr result (IfRefused (λ same. (same ≡ asked BulkKind.Find keys.now) × (is_lost caller.new ≡ false) × (made caller.new ≡ made caller.old) × (seen caller.new ≡ seen caller.old))) }
        ensures lost { IfErr result (IfLost (λ last. is_lost caller.new ≡ true)) }
        ensures last { IfErr result (IfLost (λ last. IfSome last (λ reply. IsServed bulk_set (number_of caller.old) (made caller.old) (seen caller.old) (asked BulkKind.Find keys.now) reply (made caller.new) (seen caller.new)))) }
        ensures unserved { IfErr result (IfLost (λ last. IfNone last (IsUnserved bulk_set (number_of caller.old) (made caller.old) (seen caller.old) (made caller.new) (seen caller.new)))) }
    {
        self.shared
            .call_with(rt, helper, caller, asked(BulkKind::Find, keys))
    }

    /// Ends the sharing: the callers come back, all of them in the order of their numbers, and the set is given, unless it
    /// is lost.
    ///
    /// Memory: none.
    pub fn close(self, callers: Vec<Caller<BulkInPieces>>) -> Option<BulkSet>
        requires callers { AreCallersOf self.shared callers.items }
        ensures kept { IfSome result (λ set. (log : _) × AreAllCalls bulk_set callers.items log × (set ≡ state_after bulk_set log)) }
        ensures sound { OnSome result (NoneIsLost callers.items) }
        ensures lost { IfNone result ((log : _) × AreAllCalls bulk_set callers.items log) }
        ensures told { IfNone result (SomeIsLost callers.items) }
    {
        let SharedBulkSetInPieces {
            shared,
            board,
            rest: _,
        } = self;
        drop(board);
        match shared.close(callers) {
            Some(BulkInPieces { set }) => Some(set),
            None => None,
        }
    }
}
