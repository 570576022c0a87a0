//! A stack that threads share.
ghost use Rattle.std.specs.Prelude.{◌≡◌, ◌≤◌, List, [], length, false, ⊤, Some, None, IfOk, IfErr, OnOk, OnErr, IfSome, IfNone, OnSome};
ghost use Rattle.std.proofs.Props.{props};
ghost use Rattle.shared_calls.specs.declared.view.Entry.{Entry as EntryOf};
ghost use Rattle.shared_calls.specs.Serial.{IsServedInSomeOrder};
ghost use Rattle.shared_calls.specs.Logs.{state_after};
ghost use Rattle.shared_calls.specs.Callers.{IsServed};
ghost use Rattle.shared_calls.specs.Views.{AreNewCallers, IsCallerOf, number_of_callers, number_of, made, seen, is_lost};
ghost use Rattle.shared_calls.specs.Closing.{AreCallersOf, AreAllCalls, SomeIsLost, NoneIsLost};
ghost use Rattle.shared_structures.specs.declared.stack.StackOp.{StackOp as OpOf};
ghost use Rattle.shared_structures.specs.declared.stack.StackReply.{StackReply as ReplyOf};
ghost use Rattle.shared_structures.specs.Failures.{HasFailed};
ghost use Rattle.shared_structures.specs.Stacks.{stack};
ghost use Rattle.shared_structures.specs.Code.Batches.{AreSmall};
ghost use Rattle.shared_structures.specs.Code.Stacks.{op_of, answer_of};
ghost use Rattle.limits.specs.declared.TheConstants.{MOST_WORKERS};

use crate::batches::{Answers, Asks, serve_asked};
use batched_stack::Stack;
use seq_objects::{Op, Reply};
use shared_calls::{Caller, Combined, Failed, Shared};
use std::alloc::{AllocError, Global};
use std::sync::Wait;

/// What a call asks of a stack.
#[derive(Clone, Copy)]
pub enum StackOp {
    Push(u32),
    Pop,
}

/// What it is answered: a pop gets the item, if there is one.
#[derive(Clone, Copy)]
pub enum StackReply {
    Pushed,
    Popped(Option<u32>),
}

impl Asks for StackOp {
    ghost op_of = { op_of };

    fn op(self) -> Op {
        match self {
            StackOp::Push(item) => Op::Push(0, item),
            StackOp::Pop => Op::Pop(0),
        }
    }
}

impl Answers for StackReply {
    ghost answer_of = { answer_of };

    fn answer(reply: Reply) -> StackReply {
        match reply {
            Reply::Number(item) => StackReply::Popped(Some(item as u32)),
            Reply::Empty => StackReply::Popped(None),
            Reply::Unit | Reply::Yes | Reply::No => StackReply::Pushed,
        }
    }
}

/// A batched stack, for its callers. Any batch may run out of memory, and the stack is lost then.
#[derive(Drop)]
pub struct CombinedStack {
    stack: Stack,
    ghost small: { AreSmall stack.items } by { Prim.hlevel props },
}

impl Combined for CombinedStack {
    type Op = StackOp;

    type Reply = StackReply;

    ghost object = { stack };

    ghost content = { λ s. s.stack.items };

    ghost fails = { λ s ops. ⊤ };

    fn serve(
        self,
        alloc: Global,
        ops: Vec<StackOp>,
    ) -> Result<(CombinedStack, Vec<StackReply>), AllocError>
        requires few { length ops.items ≤ MOST_WORKERS }
        ensures served { IfOk result (λ p. IsServedInSomeOrder stack self.stack.items ops.items p.1.items p.0.stack.items) }
        ensures failed { OnErr result ⊤ }
    {
        let CombinedStack { stack } = self;
        let (stack, replies) = serve_asked(alloc, stack, &ops)?;
        Ok((CombinedStack { stack }, replies))
    }
}

/// A stack that 1 to `MOST_WORKERS` callers share. Notes go by its field.
pub struct SharedStack {
    pub shared: Shared<CombinedStack>,
}

impl Drop for SharedStack {
    fn drop(self) {
        let SharedStack { shared } = self;
        drop(shared);
    }
}

impl SharedStack {
    /// An empty stack, and its callers.
    ///
    /// Memory: proportional to the callers.
    pub fn new(
        alloc: Global,
        callers: usize,
    ) -> Result<(SharedStack, Vec<Caller<CombinedStack>>), AllocError>
        requires count { (1 ≤ callers) × (callers ≤ MOST_WORKERS) }
        ensures all { IfOk result (λ r. number_of_callers r.0.shared ≡ callers) }
        ensures callers { IfOk result (λ r. AreNewCallers callers r.0.shared r.1.items) }
    {
        let stack = CombinedStack {
            stack: Stack::new(alloc)?,
        };
        let (shared, all) = Shared::share(alloc, stack, callers)?;
        Ok((SharedStack { shared }, all))
    }

    /// Pushes an item.
    ///
    /// Memory: proportional to the callers; where this caller serves a batch, what the stack takes for it.
    pub fn push<R: Wait>(
        &self,
        rt: &R,
        caller: &mut Caller<CombinedStack>,
        item: u32,
    ) -> Result<(), Failed<StackOp, StackReply>>
        requires caller { IsCallerOf self.now.shared caller.old }
        requires sound { is_lost caller.old ≡ false }
        ensures own { IsCallerOf self.now.shared caller.new × (number_of caller.new ≡ number_of caller.old) }
        ensures served { OnOk result (IsServed stack (number_of caller.old) (made caller.old) (seen caller.old) (StackOp.Push item) StackReply.Pushed (made caller.new) (seen caller.new)) }
        ensures stays { OnOk result (is_lost caller.new ≡ false) }
        ensures failed { IfErr result (HasFailed stack (number_of caller.old) (made caller.old) (seen caller.old) (StackOp.Push item) (made caller.new) (seen caller.new) (is_lost caller.new)) }
    {
        match self.shared.call(rt, caller, StackOp::Push(item))? {
            StackReply::Pushed => Ok(()),
            StackReply::Popped(_) => unreachable!(),
        }
    }

    /// Pops the top, if there is one.
    ///
    /// Memory: as that of `push`.
    pub fn pop<R: Wait>(
        &self,
        rt: &R,
        caller: &mut Caller<CombinedStack>,
    ) -> Result<Option<u32>, Failed<StackOp, StackReply>>
        requires caller { IsCallerOf self.now.shared caller.old }
        requires sound { is_lost caller.old ≡ false }
        ensures own { IsCallerOf self.now.shared caller.new × (number_of caller.new ≡ number_of caller.old) }
        ensures served { IfOk result (λ item. IsServed stack (number_of caller.old) (made caller.old) (seen caller.old) StackOp.Pop (StackReply.Popped item) (made caller.new) (seen caller.new)) }
        ensures stays { OnOk result (is_lost caller.new ≡ false) }
        ensures failed { IfErr result (HasFailed stack (number_of caller.old) (made caller.old) (seen caller.old) StackOp.Pop (made caller.new) (seen caller.new) (is_lost caller.new)) }
    {
        match self.shared.call(rt, caller, StackOp::Pop)? {
            StackReply::Popped(item) => Ok(item),
            StackReply::Pushed => unreachable!(),
        }
    }

    /// Ends the sharing: the callers come back, all of them in the order of their numbers, and the stack is given, unless
    /// it is lost.
    ///
    /// Memory: none.
    pub fn close(self, callers: Vec<Caller<CombinedStack>>) -> Option<Stack>
        requires callers { AreCallersOf self.shared callers.items }
        ensures kept { IfSome result (λ given. (log : List (EntryOf OpOf ReplyOf)) × AreAllCalls stack callers.items log × (given.items ≡ state_after stack log)) }
        ensures sound { OnSome result (NoneIsLost callers.items) }
        ensures lost { IfNone result ((log : List (EntryOf OpOf ReplyOf)) × AreAllCalls stack callers.items log) }
        ensures told { IfNone result (SomeIsLost callers.items) }
    {
        let SharedStack { shared } = self;
        let CombinedStack { stack } = shared.close(callers)?;
        Some(stack)
    }
}
