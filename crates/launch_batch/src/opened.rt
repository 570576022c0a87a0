//! An opened batch, and its end.
ghost use Rattle.std.specs.Prelude.{◌≡◌, [], ◌∷◌, ◌++◌, List, IfOk};
ghost use Rattle.seq_objects.specs.Pieces.{AllMeet, BatchContext};
ghost use Rattle.batch_history.specs.declared.batch.Entry.{Entry as EntryOf};
ghost use Rattle.launch_batch.specs.declared.piece.PieceIn.{PieceIn as Input};
ghost use Rattle.launch_batch.specs.Pieces.{Meets};
ghost use Rattle.launch_batch.specs.Calls.{IsServiceOf};
ghost use Rattle.launch_batch.specs.Contexts.{IsContextOf};
ghost use Rattle.launch_batch.specs.Code.Outs.{HaveMet};

use crate::commit::{commit, last_batch};
use crate::outs::{Outs, sort_outs};
use crate::piece::PieceOut;
use crate::row::close;
use crate::shop::Shop;
use crate::spare::emptied;
use crate::structures::Structures;
use batch_history::{Batch, History};
use batched_counter::Counter;
use batched_pq::Queue;
use batched_stack::Stack;
use batched_tree::TreeSet;
use seq_objects::Call;
use std::alloc::{AllocError, Global};

/// What a shop keeps while the pieces of a batch run.
#[derive(Drop)]
pub struct Opened {
    pub structures: Box<Structures>,
    pub history: History,
    /// The calls, in batch order.
    pub calls: Vec<Call>,
}

impl Opened {
    /// An empty vector for the outs of the pieces. It has the room of the one that was kept last.
    ///
    /// Memory: none.
    pub fn spare_outs(&mut self, alloc: Global) -> Vec<PieceOut>
        ensures empty { result.items ≡ [] }
        ensures same { (o : BatchContext (List (List EntryOf)) Input) → IsContextOf self.old o
            → IsContextOf self.new o }
    {
        emptied(alloc, &mut self.structures.spare.outs)
    }

    /// Closes the structures with the outs of each kind, and returns the shop after the batch.
    pub(crate) fn into_shop(self, alloc: Global, outs: &mut Outs) -> Result<Shop, AllocError>
        requires { (o : BatchContext (List (List EntryOf)) Input) × IsContextOf self o
            × HaveMet o.ins outs.old }
        ensures { IfOk result (λ s. (o : BatchContext (List (List EntryOf)) Input) → IsContextOf self o
            → HaveMet o.ins outs.old
            → (batch : List EntryOf) × IsServiceOf o.before o.calls batch
            × (s ≡ o.before ++ batch ∷ [])) }
    {
        let Opened {
            mut structures,
            history,
            calls,
        } = self;
        let all = calls.as_slice();
        let inner = &mut *structures;
        let mut replies = Vec::new(alloc);
        close::<Counter>(
            alloc,
            &mut inner.counter,
            all,
            &mut outs.counter,
            &mut replies,
        )?;
        close::<Stack>(alloc, &mut inner.stack, all, &mut outs.stack, &mut replies)?;
        close::<TreeSet>(alloc, &mut inner.tree, all, &mut outs.tree, &mut replies)?;
        close::<Queue>(alloc, &mut inner.queue, all, &mut outs.queue, &mut replies)?;
        let mut shop = commit(alloc, structures, history, all, replies.as_slice())?;
        shop.keep_calls(calls);
        Ok(shop)
    }

    /// Ends a batch, given an out for each piece, in piece order. Returns the shop, whose history has one more batch,
    /// and that batch: exactly the given calls, in batch order, with the replies of serving them one after another. The
    /// shop is lost if memory runs out.
    pub fn end(self, alloc: Global, mut outs: Vec<PieceOut>) -> Result<(Shop, Batch), AllocError>
        requires { (o : BatchContext (List (List EntryOf)) Input) × IsContextOf self o
            × AllMeet Meets o.ins outs.items }
        ensures batch { IfOk result (λ p. (o : BatchContext (List (List EntryOf)) Input) → IsContextOf self o
            → AllMeet Meets o.ins outs.items → IsServiceOf o.before o.calls p.1) }
        ensures history { IfOk result (λ p. (o : BatchContext (List (List EntryOf)) Input) → IsContextOf self o
            → AllMeet Meets o.ins outs.items → p.0 ≡ o.before ++ p.1 ∷ []) }
    {
        let mut apart = Outs::new();
        sort_outs(alloc, &mut outs, &mut apart)?;
        let mut shop = self.into_shop(alloc, &mut apart)?;
        shop.keep_outs(outs);
        let batch = last_batch(alloc, shop.history())?;
        Ok((shop, batch))
    }
}
