//! A map with rank and select, and how it serves operations as a batch.
ghost use Rattle.std.specs.Prelude.{◌≡◌, ◌≤◌, ⊤, [], length, map, IfOk, OnErr};
ghost use Rattle.std.specs.List.{AllByRecursion};
ghost use Rattle.shared_calls.specs.Serial.{IsServedInSomeOrder};
ghost use Rattle.shared_collections.specs.Maps.{ranked_map};
ghost use Rattle.shared_collections.specs.Code.Maps.{asked_of, count_in, own_reply, own_replies, IsSmallOp, AreSmallEntries, IsSmallReply, AreSmallReplies};
ghost use Rattle.limits.specs.declared.TheConstants.{MOST_WORKERS};

use crate::numbers::small_number;
use batched_map::{MapCall, MapOp, RankBook, in_batch_order};
use reply_order::in_call_order;
use seq_objects::Reply;
use shared_calls::Combined;
use std::alloc::{AllocError, Global};

/// An operation of a map.
#[derive(Clone, Copy)]
pub enum RankedOp {
    /// Sets the value of the key.
    Put(u32, u32),
    /// Takes the key out.
    Remove(u32),
    /// Asks for the value of the key.
    Get(u32),
    /// Asks how many keys are less.
    Rank(u32),
    /// Asks for the key that has this many keys below it.
    Nth(u32),
}

/// The reply to an operation.
#[derive(Clone, Copy)]
pub enum RankedReply {
    /// The value of the key, or that which it had before a put or a remove; none where the key was not there.
    Value(Option<u32>),
    /// How many keys are less.
    Count(u64),
    /// The key, or none where there are too few keys.
    Key(Option<u32>),
}

/// A map with rank and select, of keys and values below 2^32.
#[derive(Drop)]
pub struct RankedMap {
    pub(crate) book: RankBook,
    ghost small: { AreSmallEntries book },
}

/// The operation of `batched_map`.
fn asked_of(op: RankedOp) -> MapOp
    ensures op { result ≡ asked_of op }
    ensures small { IsSmallOp result }
{
    match op {
        RankedOp::Put(key, value) => MapOp::Put(key, value),
        RankedOp::Remove(key) => MapOp::Del(key),
        RankedOp::Get(key) => MapOp::Get(key),
        RankedOp::Rank(key) => MapOp::Rank(key),
        RankedOp::Nth(index) => MapOp::Nth(index),
    }
}

/// The operations of `batched_map`.
fn all_asked(alloc: Global, ops: &[RankedOp]) -> Result<Vec<MapOp>, AllocError>
    ensures ops { IfOk result (λ v. v.items ≡ map asked_of ops.now) }
    ensures small { IfOk result (λ v. AllByRecursion IsSmallOp v.items) }
{
    let mut asked = Vec::with_capacity(alloc, ops.len())?;
    for op in ops {
        asked.push(asked_of(*op))?;
    }
    Ok(asked)
}

/// The places of calls among the operations of their batch.
fn places_of(alloc: Global, calls: &[MapCall]) -> Result<Vec<usize>, AllocError>
    ensures { IfOk result (λ v. v.items ≡ map (λ call. call.worker) calls.now) }
{
    calls.iter().map(|call| call.worker as usize).collect(alloc)
}

/// The number in the reply to a rank.
fn count_in(reply: Reply) -> u64
    ensures { result ≡ count_in reply }
{
    match reply {
        Reply::Number(number) => number,
        _ => 0,
    }
}

/// A reply of the map as a reply to an operation.
fn own_reply(asked: MapOp, reply: Reply) -> RankedReply
    requires { IsSmallReply asked reply }
    ensures { result ≡ own_reply asked reply }
{
    match asked {
        MapOp::Put(_, _) | MapOp::Del(_) | MapOp::Get(_) => RankedReply::Value(small_number(reply)),
        MapOp::Rank(_) => RankedReply::Count(count_in(reply)),
        MapOp::Nth(_) => RankedReply::Key(small_number(reply)),
    }
}

/// The replies of the map to calls as replies to operations.
fn own_replies(
    alloc: Global,
    calls: &[MapCall],
    replies: &[Reply],
) -> Result<Vec<RankedReply>, AllocError>
    requires small { AreSmallReplies calls.now replies.now }
    requires count { length replies.now ≡ length calls.now }
    ensures { IfOk result (λ v. v.items ≡ own_replies calls.now replies.now) }
{
    let mut all = Vec::with_capacity(alloc, calls.len())?;
    for i in 0..calls.len() {
        let asked = calls[i].what;
        let reply = replies[i];
        all.push(own_reply(asked, reply))?;
    }
    Ok(all)
}

impl RankedMap {
    /// A map without entries.
    pub(crate) fn new(alloc: Global) -> Result<RankedMap, AllocError>
        ensures { IfOk result (λ m. m.book ≡ []) }
    {
        let book = RankBook::new(alloc)?;
        Ok(RankedMap { book })
    }

    /// The map itself.
    pub(crate) fn into_book(self) -> RankBook
        ensures { result ≡ self.book }
    {
        let RankedMap { book } = self;
        book
    }
}

impl Combined for RankedMap {
    type Op = RankedOp;

    type Reply = RankedReply;

    ghost object = { ranked_map };

    ghost content = { λ m. m.book };

    ghost fails = { λ m ops. ⊤ };

    fn serve(
        self,
        alloc: Global,
        ops: Vec<RankedOp>,
    ) -> Result<(RankedMap, Vec<RankedReply>), AllocError>
        requires few { length ops.items ≤ MOST_WORKERS }
        ensures served { IfOk result (λ p. IsServedInSomeOrder ranked_map self.book ops.items p.1.items p.0.book) }
        ensures failed { OnErr result ⊤ }
    {
        let asked = all_asked(alloc, &ops)?;
        let calls = in_batch_order(alloc, &asked)?;
        let (book, replies) = self.into_book().serve(alloc, &calls)?;
        let replies = own_replies(alloc, &calls, &replies)?;
        let places = places_of(alloc, &calls)?;
        let replies = in_call_order(alloc, &places, replies)?;
        Ok((RankedMap { book }, replies))
    }
}
