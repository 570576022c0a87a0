//! Replies at their places.

use reply_order::in_call_order;
use std::test::*;

#[test]
fn three_replies(rt: HostRuntime) -> Result<(), Fail> {
    let places = [2, 0, 1];
    let replies = vec![in rt.alloc(); 'c', 'a', 'b']?;
    let ordered = in_call_order(rt.alloc(), &places, replies)?;
    assert!(rt; ordered.as_slice() == ['a', 'b', 'c'].as_slice());
    Ok(())
}
