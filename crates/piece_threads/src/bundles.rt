//! Bundles of consecutive pieces, each of which one thread runs.
ghost use Rattle.std.specs.Prelude.{◌≡◌, ◌<◌, Some, IfOk};
ghost use Rattle.piece_threads.specs.Code.Bundles.{pieces_in, outs_in};

use std::alloc::{AllocError, Global};

/// Cuts pieces into bundles of `size` consecutive ones. The last may have fewer.
pub(crate) fn bundles_of<T: Drop>(
    alloc: Global,
    ins: Vec<T>,
    size: usize,
) -> Result<Vec<Vec<T>>, AllocError>
    requires { 0 < size }
    ensures { IfOk result (λ bundles. pieces_in bundles.items ≡ ins.items) }
{
    let mut bundles = Vec::new(alloc);
    let mut left = ins;
    while left.len() > size {
        let rest = left.split_off(size)?;
        bundles.push(left)?;
        left = rest;
    }
    bundles.push(left)?;
    Ok(bundles)
}

/// The outs of all bundles, in their order.
pub(crate) fn join_outs<O: Drop>(
    alloc: Global,
    results: Vec<Result<Vec<O>, AllocError>>,
) -> Result<Vec<O>, AllocError>
    ensures { IfOk result (λ outs. outs_in results.items ≡ Some outs.items) }
{
    let mut outs = Vec::new(alloc);
    for result in results {
        outs.append(&mut result?)?;
    }
    Ok(outs)
}
