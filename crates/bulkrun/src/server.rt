//! The set that serves the batches of a script.
ghost use Rattle.std.specs.Prelude.{◌≡◌, []};
ghost use Rattle.bulkrun.specs.Calls.{bulk_call};
ghost use Rattle.bulkrun.specs.Text.{bulk_lines, after_batch};

use crate::call::bulk_call;
use crate::line::push_lines;
use batch_script::{Form, Name, Serves};
use bulk_calls::{BulkOp, BulkSet, in_batch_order};
use std::alloc::{AllocError, Global};
use std::thread::Threads;

/// A set whose calls carry many keys each.
#[derive(Drop)]
pub(crate) struct SetServer {
    set: BulkSet,
}

impl Form for SetServer {
    type Call = BulkOp;

    ghost call_of = { bulk_call };

    fn call_of(words: &[Name]) -> Option<BulkOp> {
        bulk_call(words)
    }
}

impl Serves for SetServer {
    type State = BulkSet;

    ghost state = { λ server. server.set };

    ghost opening = { [] };

    ghost after = { after_batch };

    ghost lines = { bulk_lines };

    fn open(alloc: Global) -> Result<SetServer, AllocError> {
        let set = BulkSet::new(alloc)?;
        Ok(SetServer { set })
    }

    fn serve<R: Threads + Sync>(
        self,
        rt: &R,
        alloc: Global,
        number: u32,
        calls: &[BulkOp],
        text: &mut String,
    ) -> Result<SetServer, AllocError> {
        let calls = in_batch_order(alloc, calls)?;
        let (set, replies) = self.set.batch(rt, alloc, &calls)?;
        push_lines(text, number, &calls, &replies)?;
        Ok(SetServer { set })
    }
}
