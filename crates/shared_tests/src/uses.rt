//! Each use, run once.
ghost use Rattle.std.specs.Prelude.{◌≡◌, ◌+◌, ◌<◌, ◌^◌, length, IfOk};

use shared_uses::{Work, count_distinct, draw_in_threads, pass_on, sum_in_threads};
use std::alloc::{AllocError, Global};
use std::test::*;

#[test]
fn each_ticket_is_drawn(rt: HostRuntime) -> Result<(), Fail> {
    let drawn = draw_in_threads(&rt, rt.alloc(), 4, 1000)?;
    let mut all = Vec::new(rt.alloc());
    for tickets in drawn {
        for ticket in tickets {
            all.push(ticket)?;
        }
    }
    all.sort()?;
    all.dedup();
    assert!(rt; all.len() == 4000);
    assert!(rt; all.first() == Some(&1));
    assert!(rt; all.last() == Some(&4000));
    Ok(())
}

#[test]
fn chunks_are_added_up(rt: HostRuntime) -> Result<(), Fail> {
    let numbers = [7u64, 1, 8, 2, 8, 1, 8, 2, 8, 4];
    assert!(rt; sum_in_threads(&rt, rt.alloc(), &numbers, 4)? == 49);
    let few = [u64::MAX, 3];
    assert!(rt; sum_in_threads(&rt, rt.alloc(), &few, 8)? == 2);
    assert!(rt; sum_in_threads(&rt, rt.alloc(), &[], 2)? == 0);
    Ok(())
}

/// So many items, each by one more than the one before.
fn items_from(alloc: Global, first: u32, count: u32) -> Result<Vec<u32>, AllocError>
    requires { first + count < 2 ^ 32 }
    ensures { IfOk result (λ items. length items.items ≡ count) }
{
    let mut items = Vec::new(alloc);
    for i in 0..count {
        items.push(first + i)?;
    }
    Ok(items)
}

#[test]
fn distinct_keys_are_counted(rt: HostRuntime) -> Result<(), Fail> {
    let mut keys = Vec::new(rt.alloc());
    keys.push(items_from(rt.alloc(), 0, 500)?)?;
    keys.push(items_from(rt.alloc(), 250, 500)?)?;
    keys.push(Vec::new(rt.alloc()))?;
    keys.push(Vec::from_slice(rt.alloc(), &[u32::MAX, 9, u32::MAX])?)?;
    assert!(rt; count_distinct(&rt, rt.alloc(), keys)? == 751);
    let mut none = Vec::new(rt.alloc());
    none.push(Vec::new(rt.alloc()))?;
    assert!(rt; count_distinct(&rt, rt.alloc(), none)? == 0);
    Ok(())
}

#[test]
fn items_are_passed_on(rt: HostRuntime) -> Result<(), Fail> {
    let mut work = Vec::new(rt.alloc());
    work.push(Work {
        puts: items_from(rt.alloc(), 0, 500)?,
        takes: 0,
    })?;
    work.push(Work {
        puts: items_from(rt.alloc(), 1000, 500)?,
        takes: 300,
    })?;
    work.push(Work {
        puts: Vec::new(rt.alloc()),
        takes: 700,
    })?;
    let mut all = Vec::new(rt.alloc());
    for taken in pass_on(&rt, rt.alloc(), work)? {
        let mut low = 0;
        let mut high = 1000;
        for item in taken {
            if item < 1000 {
                assert!(rt; low <= item);
                low = item;
            } else {
                assert!(rt; high <= item);
                high = item;
            }
            all.push(item)?;
        }
    }
    all.sort()?;
    all.dedup();
    assert!(rt; all.len() == 1000);
    assert!(rt; all.last() == Some(&1499));
    Ok(())
}
