//! Texts with replies as arguments: the sources of their leaves, or their fault, and some canonical texts.
use crate::texts::{LongRow, Row, Telling, first_missized, first_mistold, first_uncanonical};
use sp_order::Job;
use std::alloc::{AllocError, Global};
use std::fmt::Write;
use std::test::Fail;
use test_rows::all_hold;

/// Texts, each with the source of each leaf, from left to right, or with what is told of its fault. A dash stands for a
/// leaf that has no source.
const SOURCES: &[Row] = &[
    (b"let a = counter add 5 tree insert a stack push a", "- 0 0"),
    (
        b"par { let a = counter add 1 tree insert a }",
        "line 1: name not known here",
    ),
    (
        b"for 2 { let a = counter add 1 } tree insert a",
        "line 1: name not known here",
    ),
    (b"tree insert a", "line 1: name not known here"),
    (b"work a", "line 1: not in the grammar"),
    (
        b"par { let a = counter add 1 work 1 } tree insert a",
        "- - 0",
    ),
    (
        b"counter add 4294967295 let a = counter add 2 stack push a",
        "- - 1",
    ),
    (b"let a = counter add a", "line 1: name not known here"),
    (
        b"let a = counter add 1 let a = counter add a tree insert a",
        "- 0 1",
    ),
    (
        b"let a = counter add 7 for 2 { tree insert a let a = counter add 2 tree insert a } tree insert a",
        "- 0 - 2 0 - 5 0",
    ),
    (b"for 2 { let a = counter add @ tree insert a }", "- 0 - 2"),
    (
        b"pfor 2 { let a = counter add @ for 2 { tree insert a stack push @ } }",
        "- 0 - 0 - - 5 - 5 -",
    ),
    (
        b"for 1 { let a = counter add 1 } tree insert a",
        "line 1: name not known here",
    ),
    (
        b"par { seq { let a = counter add 1 tree insert a } tree find 1 }",
        "- 0 -",
    ),
    (
        b"par { seq { let a = counter add 1 } seq { tree insert a } }",
        "line 1: name not known here",
    ),
    (
        b"par { let a = counter add 1 seq { let a = counter add 2 } } tree insert a",
        "- - 1",
    ),
    (
        b"let a = counter add 1 par { let a = counter add 2 tree insert a }",
        "- - 0",
    ),
    (b"seq { seq { let a = stack pop } } tree next a", "- 0"),
    (
        b"par { par { let a = counter add 1 } seq { let b = counter add 2 stack push b } } tree insert b",
        "- - 1 1",
    ),
    (
        b"par { pfor 1 { let a = counter add 1 } } tree insert a",
        "line 1: name not known here",
    ),
    (b"par { let a = counter add 1 } tree insert a", "- 0"),
    (b"for 0 { let a = counter add 1 tree insert a }", ""),
    (
        b"for 0 { let a = counter add 1 tree insert b }",
        "line 1: name not known here",
    ),
    (b"let a = counter add 1 for 0 { tree insert a }", "-"),
    (b"let work = counter add 1", "line 1: not in the grammar"),
    (b"let a = work 5", "line 1: not in the grammar"),
    (b"let a=counter add 1", "line 1: not in the grammar"),
    (b"let a =", "line 1: not in the grammar"),
    (
        b"let a = seq { counter add 1 }",
        "line 1: not in the grammar",
    ),
    (b"tree insert let", "line 1: not in the grammar"),
    (b"tree insert Abc", "line 1: not in the grammar"),
    (b"let 1a = queue take", "line 1: not in the grammar"),
    (b"let @ = counter add 1", "line 1: not in the grammar"),
    (b"for a { work 1 }", "line 1: not in the grammar"),
    (
        b"let a = counter add 1 work a",
        "line 1: not in the grammar",
    ),
    (
        b"let a = counter add 1 } tree insert a",
        "line 1: not in the grammar",
    ),
    (
        b"tree insert aaaaaaaaaaaaaaaaaaaaaaaaaaaaaaaaa",
        "line 1: not in the grammar",
    ),
    (
        b"let aaaaaaaaaaaaaaaaaaaaaaaaaaaaaaaaa = counter add 1",
        "line 1: not in the grammar",
    ),
    (
        b"let aaaaaaaaaaaaaaaaaaaaaaaaaaaaaaaa = counter add 1 tree insert aaaaaaaaaaaaaaaaaaaaaaaaaaaaaaaa",
        "- 0",
    ),
    (b"let a_1 = queue take queue insert a_1", "- 0"),
    (b"let ok = queue take queue insert ok", "- 0"),
    (
        b"let\na\n=\ncounter\nadd 007",
        "line 5: number out of range",
    ),
    (
        b"tree insert b\ntree shove 2",
        "line 1: name not known here",
    ),
    (
        b"tree insert 007 tree insert b",
        "line 1: number out of range",
    ),
    (
        b"seq { let a = counter add 1 tree insert b",
        "line 1: name not known here",
    ),
    (
        b"pfor 20000 { work 1 }\nlet a = counter add 1",
        "line 2: too many leaves",
    ),
    (
        b"for 3 { let a = counter add @*4294967295+1 }\nwork 1",
        "line 1: argument out of range",
    ),
    (
        b"let a = stack pop let a = tree insert a stack push a",
        "- 0 1",
    ),
    (
        b"let a = counter add 1 tree insert a # tree insert b",
        "- 0",
    ),
];

/// Texts with the canonical texts of their jobs. A name that no leaf uses, or that a later one hides, is not written.
const CANONICAL: &[Row] = &[
    (
        b"let a = counter add 5 tree insert a stack push a",
        "seq { seq { let v0 = counter add 5 tree insert v0 } stack push v0 }\n",
    ),
    (
        b"let a = counter add 1 for 0 { tree insert a }",
        "counter add 1\n",
    ),
    (
        b"let a = counter add 1 let a = counter add 2 tree insert a",
        "seq { seq { counter add 1 let v1 = counter add 2 } tree insert v1 }\n",
    ),
    (
        b"let a = counter add 1 let a = counter add a tree insert a",
        "seq { seq { let v0 = counter add 1 let v1 = counter add v0 } tree insert v1 }\n",
    ),
    (
        b"par { let a = stack pop work 1 } queue insert a",
        "seq { par { let v0 = stack pop work 1 } queue insert v0 }\n",
    ),
];

/// The source of each leaf.
struct Sources;

impl Telling for Sources {
    fn tell(alloc: Global, job: &Job) -> Result<Vec<u8>, AllocError> {
        let mut told = String::new(alloc);
        for leaf in 0..job.acts().len() as u32 {
            if leaf > 0 {
                told.push_str(" ")?;
            }
            match job.source(leaf) {
                Some(source) => write!(told, "{source}")?,
                None => told.push_str("-")?,
            }
        }
        Ok(told.into_bytes())
    }
}

#[test]
fn leaves_have_these_sources(rt: HostRuntime) -> Result<(), Fail> {
    all_hold(first_mistold::<Sources>(rt.alloc(), SOURCES)?)
}

#[test]
fn replies_have_these_texts(rt: HostRuntime) -> Result<(), Fail> {
    all_hold(first_uncanonical(rt.alloc(), CANONICAL)?)
}

/// 58,000 lets of one name, which end in a use of another, and in a use of this one.
const LETS: &[LongRow] = &[
    (
        "",
        58_000,
        "let a = stack pop\n",
        "stack push b",
        "",
        "",
        "line 58001: name not known here",
    ),
    (
        "",
        58_000,
        "let a = stack pop\n",
        "stack push a",
        "",
        "",
        "line 20001: too many leaves",
    ),
];

/// Each let is read once, and the use looks at none of them.
#[test]
fn many_lets_are_read(rt: HostRuntime) -> Result<(), Fail> {
    all_hold(first_missized(rt.alloc(), LETS)?)
}
