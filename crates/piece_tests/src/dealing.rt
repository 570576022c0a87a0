//! Operations that are dealt to groups, and replies that are merged.

use keyed_pieces::{deal, merge};
use std::alloc::{AllocError, Global};
use std::collections::VecDeque;
use std::test::Fail;

/// Whether each group has its items in their order.
fn are_dealt(alloc: Global) -> Result<bool, AllocError> {
    let dealt = deal(alloc, &[10u32, 20, 30, 40], &[1, 0, 1, 3], 4)?;
    let words = format!(in alloc; "{dealt:?}")?;
    Ok(words.as_str() == "[[20], [10, 30], [], [40]]")
}

#[test]
fn each_group_has_its_items_in_their_order(rt: HostRuntime) -> Result<(), Fail> {
    assert!(rt; are_dealt(rt.alloc())?);
    Ok(())
}

/// Whether each item gets the next reply of its group.
fn are_merged(alloc: Global) -> Result<bool, AllocError> {
    let mut low = VecDeque::new(alloc);
    low.push_back(2u32)?;
    let mut high = VecDeque::new(alloc);
    high.push_back(1u32)?;
    high.push_back(3)?;
    let merged = merge(alloc, &[1, 0, 1], vec![in alloc; low, high]?)?;
    Ok(merged.as_slice() == [1, 2, 3].as_slice())
}

#[test]
fn each_item_gets_the_next_reply_of_its_group(rt: HostRuntime) -> Result<(), Fail> {
    assert!(rt; are_merged(rt.alloc())?);
    Ok(())
}
