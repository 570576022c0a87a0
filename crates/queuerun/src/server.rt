//! The queue that serves the batches of a script.
ghost use Rattle.std.specs.Prelude.{◌≡◌, []};
ghost use Rattle.queuerun.specs.Calls.{queue_call};
ghost use Rattle.queuerun.specs.Text.{fifo_lines, after_batch};

use crate::call::queue_call;
use crate::line::push_lines;
use batch_script::{Form, Name, Serves};
use batched_queue::{FifoQueue, in_batch_order};
use std::alloc::{AllocError, Global};
use std::thread::Threads;

/// A batched queue, whose calls are puts of an item and gets, which have none.
#[derive(Drop)]
pub(crate) struct QueueServer {
    queue: FifoQueue,
}

impl Form for QueueServer {
    type Call = Option<u32>;

    ghost call_of = { queue_call };

    fn call_of(words: &[Name]) -> Option<Option<u32>> {
        queue_call(words)
    }
}

impl Serves for QueueServer {
    type State = FifoQueue;

    ghost state = { λ server. server.queue };

    ghost opening = { [] };

    ghost after = { after_batch };

    ghost lines = { fifo_lines };

    fn open(alloc: Global) -> Result<QueueServer, AllocError> {
        let queue = FifoQueue::new(alloc)?;
        Ok(QueueServer { queue })
    }

    fn serve<R: Threads + Sync>(
        self,
        rt: &R,
        alloc: Global,
        number: u32,
        calls: &[Option<u32>],
        text: &mut String,
    ) -> Result<QueueServer, AllocError> {
        let calls = in_batch_order(alloc, calls)?;
        let (queue, replies) = self.queue.batch(rt, alloc, &calls)?;
        push_lines(text, number, &calls, &replies)?;
        Ok(QueueServer { queue })
    }
}
