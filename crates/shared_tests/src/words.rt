//! Texts whose words threads count.

use std::test::*;
use word_counts::{WordCounts, count_in_threads};

#[test]
fn the_counts_are_those_of_one_thread(rt: HostRuntime) -> Result<(), Fail> {
    let text = b"to be\nor not\r\nto be\t\x0bthat\x0cis\n\n to\nbe-\nTo";
    let lines = b"To 1\nbe 2\nbe- 1\nis 1\nnot 1\nor 1\nthat 1\nto 3\n";
    for threads in 1..33 {
        let counts = count_in_threads(&rt, rt.alloc(), text, threads)?;
        assert!(rt; counts.text(rt.alloc())?.as_slice() == lines.as_slice());
    }
    Ok(())
}

#[test]
fn a_word_is_counted_once_more(rt: HostRuntime) -> Result<(), Fail> {
    let mut counts = WordCounts::new(rt.alloc());
    assert!(rt; counts.add(Vec::from_slice(rt.alloc(), b"gull")?)? == 1);
    assert!(rt; counts.add(Vec::from_slice(rt.alloc(), b"ferry")?)? == 1);
    assert!(rt; counts.add(Vec::from_slice(rt.alloc(), b"gull")?)? == 2);
    assert!(rt; counts.text(rt.alloc())?.as_slice() == b"ferry 1\ngull 2\n".as_slice());
    Ok(())
}

#[test]
fn a_text_without_words_has_no_counts(rt: HostRuntime) -> Result<(), Fail> {
    let none = count_in_threads(&rt, rt.alloc(), b"", 4)?;
    assert!(rt; none.text(rt.alloc())?.is_empty());
    let blank = count_in_threads(&rt, rt.alloc(), b" \n\t\n", 2)?;
    assert!(rt; blank.text(rt.alloc())?.is_empty());
    Ok(())
}
