//! Texts of the job language, each with its job or its fault.
use crate::texts::{Canonical, LongRow, Row, first_missized, first_mistold, first_uncanonical};
use job_lang::JobErr;
use std::alloc::{AllocError, Global};
use std::test::Fail;
use test_rows::all_hold;

/// Texts of jobs, at least one for each rule of the grammar, and the canonical texts of these jobs.
const JOBS: &[Row] = &[
    (b"", ""),
    (b"#\xff", ""),
    (b"pfor 4294967295 { }", ""),
    (b"for 0 { work @*4294967295+1 }", ""),
    (b"seq { par { } } par { seq { } }", ""),
    (b"seq{work 1}", "work 1\n"),
    (b"work 1# tail", "work 1\n"),
    (b"counter\nadd\r\n4294967295", "counter add 4294967295\n"),
    (b"pfor 1 { counter add @*4294967295+1 }", "counter add 1\n"),
    (
        b"work 1 par { work 2 work 3 }",
        "seq { work 1 par { work 2 work 3 } }\n",
    ),
    (
        b"work 1 work 2 counter add 3",
        "seq { seq { work 1 work 2 } counter add 3 }\n",
    ),
    (
        b"par { seq { work 1 work 2 } par { } work 3 }",
        "par { seq { work 1 work 2 } work 3 }\n",
    ),
    (
        b"work 1 work 2 work 3 work 4 work 5",
        "seq { seq { seq { work 1 work 2 } work 3 } seq { work 4 work 5 } }\n",
    ),
    (
        b"for 3 { stack push @*10+1 } stack pop",
        "seq { seq { seq { stack push 1 stack push 11 } stack push 21 } stack pop }\n",
    ),
    (
        b"pfor 3 { stack push @ }",
        "par { par { stack push 0 stack push 1 } stack push 2 }\n",
    ),
    (
        b"pfor 2 { work 7 par { work @ seq { } work @*2+1 } }",
        "par { seq { work 7 par { work 0 work 1 } } seq { work 7 par { work 1 work 3 } } }\n",
    ),
    (
        b"for 2 { pfor 2 { tree insert @ } tree remove @*5+2 }",
        "seq { seq { par { tree insert 0 tree insert 1 } tree remove 2 } \
seq { par { tree insert 0 tree insert 1 } tree remove 7 } }\n",
    ),
    (
        b"tree find 1 tree next 2 queue insert 3 queue take",
        "seq { seq { tree find 1 tree next 2 } seq { queue insert 3 queue take } }\n",
    ),
    (
        b"pfor 5 { work 1 work 2 }",
        "par { par { par { seq { work 1 work 2 } seq { work 1 work 2 } } seq { work 1 work 2 } } \
par { seq { work 1 work 2 } seq { work 1 work 2 } } }\n",
    ),
    (
        b"for 1 { work @*4294967295+4294967295 }",
        "work 4294967295\n",
    ),
    (b"for 3 { for 0 { work @*9+9 } } work 2", "work 2\n"),
];

/// Texts that are no jobs, and what is told of their faults.
const FAULTS: &[Row] = &[
    (b"work 1\n\xff", "line 2: byte not allowed"),
    (b"work 00\n\x00", "line 2: byte not allowed"),
    (
        b"counter add 1\nstack shove 2",
        "line 2: not in the grammar",
    ),
    (b"counter add -1", "line 1: not in the grammar"),
    (b"par {\ncounter add 1\n", "line 3: not in the grammar"),
    (b"work", "line 1: not in the grammar"),
    (b"}", "line 1: not in the grammar"),
    (b"work @", "line 1: not in the grammar"),
    (b"for 2 { work @*1 }", "line 1: not in the grammar"),
    (b"work @*01+2", "line 1: not in the grammar"),
    (b"# {\nseq # }\n{ work 1", "line 3: not in the grammar"),
    (
        b"pfor 20001 { work @ } }\nwork 01",
        "line 1: not in the grammar",
    ),
    (b"counter add 007", "line 1: number out of range"),
    (b"counter add 4294967296", "line 1: number out of range"),
    (b"for 2 { work @*01+2 }", "line 1: number out of range"),
    (
        b"work 1\nseq { par {\npfor 20001 { work 1 } } }",
        "line 2: too many leaves",
    ),
    (
        b"pfor 20001 { work @*4294967295+1 }",
        "line 1: too many leaves",
    ),
    (
        b"pfor 3 { counter add @*4294967295+1 }",
        "line 1: argument out of range",
    ),
    (
        b"for 0 { pfor 2 { work @*4294967295+1 } }",
        "line 1: argument out of range",
    ),
    (
        b"for 4 { work @*1073741823+1\nwork @*1431655765+0\nwork\n@*1431655765+1 }",
        "line 4: argument out of range",
    ),
];

/// Texts on both sides of each limit.
const LONG: &[LongRow] = &[
    ("", 32, "seq {\n", "work 1\n", "}\n", "", "1 leaves"),
    (
        "",
        33,
        "seq {\n",
        "work 1\n",
        "}\n",
        "",
        "line 33: blocks nested too deep",
    ),
    // Blocks that are closed do not count.
    ("", 40, "seq { par { } }", "", "", "", "0 leaves"),
    ("", 32, "for 4294967295 {", "", "}", "", "0 leaves"),
    ("", 20_000, "work 1\n", "", "", "", "20000 leaves"),
    (
        "",
        20_001,
        "work 1\n",
        "",
        "",
        "",
        "line 20001: too many leaves",
    ),
    (
        "for 2 { pfor 100 { ",
        2,
        "seq {",
        "for 100 { work @ }",
        "}",
        "} }",
        "20000 leaves",
    ),
    // A row of empty blocks is not visited in each copy.
    (
        "pfor 20000 { ",
        20_000,
        "seq{} ",
        "work 1 ",
        "",
        "}",
        "20000 leaves",
    ),
];

#[test]
fn texts_are_these_jobs(rt: HostRuntime) -> Result<(), Fail> {
    all_hold(first_uncanonical(rt.alloc(), JOBS)?)
}

/// The place of the first text with another fault, if there is one. Behind the texts comes the want of memory.
fn first_misjudged(alloc: Global) -> Result<Option<usize>, AllocError> {
    let memory = format!(in alloc; "{}", JobErr::Memory)?;
    if memory.as_str() != "out of memory" {
        return Ok(Some(FAULTS.len()));
    }
    first_mistold::<Canonical>(alloc, FAULTS)
}

#[test]
fn texts_have_these_faults(rt: HostRuntime) -> Result<(), Fail> {
    all_hold(first_misjudged(rt.alloc())?)
}

#[test]
fn limits_are_where_they_are_said(rt: HostRuntime) -> Result<(), Fail> {
    all_hold(first_missized(rt.alloc(), LONG)?)
}
