//! A script that is being read: its state between two lines, and the limits that a call may break.
ghost use Rattle.std.specs.Prelude.{◌≡◌, ◌+◌, ◌<◌, ◌≤◌, ◌^◌, [], length, None, IfErr, OnOk};
ghost use Rattle.batch_script.specs.Code.Reading.{ended, called, fault_of_call, IsRefusal};

use crate::fault::{ScriptErr, ScriptFault};
use crate::script::Script;
use limits::{MOST_BATCH_CALLS, MOST_SCRIPT_CALLS};
use std::alloc::{AllocError, Global};
use std::marker::Model;
use std::mem;

/// The batches of a script that are done, the calls of the next, and how many calls there are in all.
#[derive(Drop)]
pub(crate) struct Reading<C: Drop> {
    done: Vec<Vec<C>>,
    begun: Vec<C>,
    number: u32,
}

impl<C: Drop> Model for Reading<C> {
    ghost use Rattle.std.specs.Prelude.{◌≤◌, map, length};
    ghost use Rattle.std.specs.List.{AllByRecursion};
    ghost use Rattle.limits.specs.declared.TheConstants.{MOST_BATCH_CALLS};
    ghost use Rattle.batch_script.specs.Scripts.{IsBatch};
    ghost use Rattle.batch_script.specs.Code.Reading.{Read};

    ghost Value = { Read C };

    ghost view = { λ reading. record {
      done = map (λ batch. batch.items) reading.done.items;
      begun = reading.begun.items;
      number = reading.number;
    } };

    ghost invariant = { λ reading. AllByRecursion (λ batch. IsBatch batch.items) reading.done.items
        × (length reading.begun.items ≤ MOST_BATCH_CALLS) };
}

impl<C: Drop> Reading<C> {
    /// A reading that has read no line.
    pub(crate) fn new(alloc: Global) -> Reading<C>
        ensures { result ≡ record { done = []; begun = []; number = 0 } }
    {
        Reading {
            done: Vec::new(alloc),
            begun: Vec::new(alloc),
            number: 0,
        }
    }

    /// Ends the batch, unless it is empty.
    pub(crate) fn close(&mut self, alloc: Global) -> Result<(), AllocError>
        ensures ended { OnOk result (self.new ≡ ended self.old) }
        ensures few { OnOk result (length self.new.done ≤ length self.old.done + 1) }
    {
        if !self.begun.is_empty() {
            let batch = mem::replace(&mut self.begun, Vec::new(alloc));
            self.done.push(batch)?;
        }
        Ok(())
    }

    /// Adds the call of a line to the batch that is begun. `None` stands for a line that is no call.
    pub(crate) fn take_call(&mut self, call: Option<C>, line: u32) -> Result<(), ScriptErr>
        ensures none { OnOk result (fault_of_call call self.old.number (length self.old.begun) line ≡ None) }
        ensures called { OnOk result (self.new ≡ called self.old call) }
        ensures err { IfErr result (IsRefusal (fault_of_call call self.old.number (length self.old.begun) line)) }
    {
        let Some(call) = call else {
            return Err(ScriptErr::Bad(ScriptFault::Call { line }));
        };
        if self.begun.len() >= MOST_BATCH_CALLS {
            return Err(ScriptErr::Bad(ScriptFault::Batch { line }));
        }
        if self.number >= MOST_SCRIPT_CALLS {
            return Err(ScriptErr::Bad(ScriptFault::Calls { line }));
        }
        if self.begun.push(call).is_err() {
            return Err(ScriptErr::Memory);
        }
        self.number += 1;
        Ok(())
    }

    /// The script of the batches that have ended.
    pub(crate) fn into_script(self) -> Script<C>
        requires { length self.done < 2 ^ 32 }
        ensures { result ≡ self.done }
    {
        Script { batches: self.done }
    }
}
