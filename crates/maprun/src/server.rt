//! The map that serves the batches of a script.
ghost use Rattle.std.specs.Prelude.{◌≡◌, []};
ghost use Rattle.maprun.specs.Calls.{map_call};
ghost use Rattle.maprun.specs.Text.{map_lines, after_batch};

use crate::call::map_call;
use crate::line::push_lines;
use batch_script::{Form, Name, Serves};
use batched_map::{MapOp, RankBook, in_batch_order};
use std::alloc::{AllocError, Global};
use std::thread::Threads;

/// A batched map.
#[derive(Drop)]
pub(crate) struct MapServer {
    book: RankBook,
}

impl Form for MapServer {
    type Call = MapOp;

    ghost call_of = { map_call };

    fn call_of(words: &[Name]) -> Option<MapOp> {
        map_call(words)
    }
}

impl Serves for MapServer {
    type State = RankBook;

    ghost state = { λ server. server.book };

    ghost opening = { [] };

    ghost after = { after_batch };

    ghost lines = { map_lines };

    fn open(alloc: Global) -> Result<MapServer, AllocError> {
        let book = RankBook::new(alloc)?;
        Ok(MapServer { book })
    }

    fn serve<R: Threads + Sync>(
        self,
        rt: &R,
        alloc: Global,
        number: u32,
        calls: &[MapOp],
        text: &mut String,
    ) -> Result<MapServer, AllocError> {
        let calls = in_batch_order(alloc, calls)?;
        let (book, replies) = self.book.batch(rt, alloc, &calls)?;
        push_lines(text, number, &calls, &replies)?;
        Ok(MapServer { book })
    }
}
