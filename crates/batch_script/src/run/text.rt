//! The text of a script: its batches served one after another.
ghost use Rattle.std.specs.Prelude.{◌≡◌, IfOk, string_bytes};
ghost use Rattle.batch_script.specs.Texts.{batches_text};

use crate::script::Script;
use crate::serves::Serves;
use std::alloc::{AllocError, Global};
use std::thread::Threads;

/// The lines of all calls of a script.
pub(crate) fn text_of<R: Threads + Sync, T: Serves>(
    rt: &R,
    alloc: Global,
    script: &Script<T::Call>,
) -> Result<String, AllocError>
    ensures { IfOk result (λ text. string_bytes text
        ≡ batches_text T.lines T.after 0 T.opening script.now) }
{
    let mut object = T::open(alloc)?;
    let mut text = String::new(alloc);
    for b in 0..script.count() {
        object = object.serve(rt, alloc, b, script.batch(b), &mut text)?;
    }
    Ok(text)
}
