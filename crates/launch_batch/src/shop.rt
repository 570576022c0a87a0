//! The shop, and the opening of a batch in pieces.
ghost use Rattle.std.specs.Prelude.{◌≡◌, ◌<◌, ◌≤◌, [], length, map, List, IfOk};
ghost use Rattle.std.specs.List.{AllByRecursion};
ghost use Rattle.limits.specs.declared.TheConstants.{PLACES};
ghost use Rattle.seq_objects.specs.declared.call.Call.{Call as CallOf};
ghost use Rattle.seq_objects.specs.Orders.{StrictlyAscends};
ghost use Rattle.seq_objects.specs.Batches.{AreInBatchOrder};
ghost use Rattle.launch_batch.specs.Calls.{MayServe, ArePermutations};
ghost use Rattle.launch_batch.specs.Pieces.{place_of};
ghost use Rattle.launch_batch.specs.Places.{places, IsInOwnRow};
ghost use Rattle.launch_batch.specs.Contexts.{IsContextOf};

use crate::opened::Opened;
use crate::order::put_in_batch_order;
use crate::piece::{
    FIRST_OF_COUNTERS, FIRST_OF_QUEUES, FIRST_OF_STACKS, FIRST_OF_TREES, PieceIn, PieceOut,
};
use crate::row::open;
use crate::spare::{Spare, emptied};
use crate::structures::Structures;
use batch_history::History;
use batched_counter::Counter;
use batched_pq::Queue;
use batched_stack::Stack;
use batched_tree::TreeSet;
use object_rows::Row;
use seq_objects::Call;
use std::alloc::{AllocError, Global};
use std::marker::Model;

/// The structures of each kind, and the history of the batches that they served. Contracts see it as this history.
#[derive(Drop)]
pub struct Shop {
    pub(crate) structures: Box<Structures>,
    pub(crate) history: History,
}

impl Model for Shop {
    ghost use Rattle.std.specs.Prelude.{List};
    ghost use Rattle.batch_history.specs.declared.batch.Entry.{Entry};
    ghost use Rattle.launch_batch.specs.Contents.{ShopInvariant};

    ghost Value = { List (List Entry) };

    ghost view = { λ s. s.history };

    ghost invariant = { λ s. ShopInvariant s.structures.value s.history };
}

impl Shop {
    /// A shop without structures, and with no batch in its history. A structure is made at its first call.
    pub fn new(alloc: Global) -> Result<Shop, AllocError>
        ensures { IfOk result (λ s. s ≡ []) }
    {
        let structures = Structures {
            counter: Row::new(alloc),
            stack: Row::new(alloc),
            tree: Row::new(alloc),
            queue: Row::new(alloc),
            spare: Spare::new(alloc),
        };
        Ok(Shop {
            structures: Box::new(alloc, structures)?,
            history: History::new(alloc),
        })
    }

    /// The history of the served batches.
    ///
    /// Memory: none.
    pub fn history(&self) -> &History
        ensures { result.now ≡ self.now }
    {
        &self.history
    }

    /// The history of the served batches. The structures are dropped.
    ///
    /// Memory: none.
    pub fn into_history(self) -> History
        ensures { result ≡ self }
    {
        self.history
    }

    /// An empty vector for the calls of a batch. It has the room of the one that was kept last.
    ///
    /// Memory: none.
    pub fn spare_calls(&mut self, alloc: Global) -> Vec<Call>
        ensures empty { result.items ≡ [] }
        ensures same { self.new ≡ self.old }
    {
        emptied(alloc, &mut self.structures.spare.calls)
    }

    /// Keeps a vector for the calls of a later batch. Its items are lost.
    ///
    /// Memory: none.
    pub fn keep_calls(&mut self, calls: Vec<Call>)
        ensures { self.new ≡ self.old }
    {
        self.structures.spare.calls = calls;
    }

    /// Keeps a vector for the outs of a later batch. Its items are lost.
    ///
    /// Memory: none.
    pub(crate) fn keep_outs(&mut self, outs: Vec<PieceOut>)
        ensures { self.new ≡ self.old }
    {
        self.structures.spare.outs = outs;
    }

    /// Opens a batch of these calls, given in any order. Each called structure gets pieces, at places in its kind's
    /// row; those at one place go together. The pieces stand in ascending order of place. The shop is lost if memory
    /// runs out.
    pub fn begin(
        self,
        alloc: Global,
        mut calls: Vec<Call>,
    ) -> Result<(Opened, Vec<PieceIn>), AllocError>
        requires { MayServe self calls.items }
        ensures count { IfOk result (λ p. (1 ≤ length p.1.items) × (length p.1.items ≤ PLACES)) }
        ensures below { IfOk result (λ p. AllByRecursion (λ input. place_of input < PLACES) p.1.items) }
        ensures places { IfOk result (λ p. (ordered : List CallOf) × ArePermutations calls.items ordered
            × AreInBatchOrder ordered × (map place_of p.1.items ≡ places self ordered)) }
        ensures rows { IfOk result (λ p. AllByRecursion IsInOwnRow p.1.items) }
        ensures ascend { IfOk result (λ p. StrictlyAscends (map place_of p.1.items)) }
        ensures context { IfOk result (λ p. IsContextOf p.0
            (record { before = self; calls = calls.items; ins = p.1.items })) }
    {
        let Shop {
            mut structures,
            history,
        } = self;
        put_in_batch_order(alloc, &mut calls)?;
        let all = calls.as_slice();
        let inner = &mut *structures;
        let mut pieces = Vec::new(alloc);
        open::<Counter>(
            alloc,
            &mut inner.counter,
            all,
            FIRST_OF_COUNTERS,
            &mut pieces,
        )?;
        open::<Stack>(alloc, &mut inner.stack, all, FIRST_OF_STACKS, &mut pieces)?;
        open::<TreeSet>(alloc, &mut inner.tree, all, FIRST_OF_TREES, &mut pieces)?;
        open::<Queue>(alloc, &mut inner.queue, all, FIRST_OF_QUEUES, &mut pieces)?;
        let opened = Opened {
            structures,
            history,
            calls,
        };
        Ok((opened, pieces))
    }
}
