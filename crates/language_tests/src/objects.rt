//! Texts with named objects: the numbers that their leaves call and the names of the job, or their fault, and some
//! canonical texts.
use crate::texts::{Row, Telling, first_mistold, first_uncanonical};
use seq_objects::Act;
use sp_order::Job;
use std::alloc::{AllocError, Global};
use std::fmt::Write;
use std::test::Fail;
use test_rows::all_hold;

/// Texts, each with the number of the object of each leaf, from left to right, and behind a stroke the names of the
/// numbers 1, 2, and so on; or with what is told of its fault. A dash stands for a leaf of work.
const OBJECTS: &[Row] = &[
    (
        b"counter:a add 1 counter:b add 2 counter add 4 counter:a add 8",
        "1 2 0 1 / a b",
    ),
    (b"", "/"),
    (b"work 3 stack push 1", "- 0 /"),
    (b"tree:tree insert 1", "1 / tree"),
    (b"stack:pop pop stack:pop push 3", "1 1 / pop"),
    (
        b"counter:a add 1 stack:a push 1 tree:a insert 1 queue:a insert 1 stack:a pop",
        "1 2 3 4 2 / a a a a",
    ),
    (b"for 0 { counter:x add 1 } counter:y add 1", "1 / y"),
    (b"pfor 2 { queue:q insert @ queue:r take }", "1 2 1 2 / q r"),
    (b"let a = counter:c add 5 tree:c insert a", "1 2 / c c"),
    (b"counter:let add 1 counter:work add 2", "1 2 / let work"),
    (
        b"pfor 2 { counter:z add 1 } for 0 { stack:w pop } stack:v pop counter:z add 3",
        "1 1 2 1 / z v",
    ),
    (
        b"tree:b find 1 work 2 tree:a next 1 tree:b remove 1",
        "1 - 2 1 / b a",
    ),
    (
        b"queue:aaaaaaaaaaaaaaaaaaaaaaaaaaaaaaaa take",
        "1 / aaaaaaaaaaaaaaaaaaaaaaaaaaaaaaaa",
    ),
    (
        b"queue:aaaaaaaaaaaaaaaaaaaaaaaaaaaaaaaaa take",
        "line 1: not in the grammar",
    ),
    (b"tree: insert 1", "line 1: not in the grammar"),
    (b"tree:A insert 1", "line 1: not in the grammar"),
    (b"tree:a:b insert 1", "line 1: not in the grammar"),
    (b"tree:1a insert 1", "line 1: not in the grammar"),
    (b"tree :a insert 1", "line 1: not in the grammar"),
    (b"work:a 1", "line 1: not in the grammar"),
    (b"seq:a { work 1 }", "line 1: not in the grammar"),
    (b"list:a insert 1", "line 1: not in the grammar"),
    (b":a insert 1", "line 1: not in the grammar"),
    (b"counter:a push 1", "line 1: not in the grammar"),
    (b"counter:a", "line 1: not in the grammar"),
    (b"tree insert tree:x", "line 1: not in the grammar"),
    (b"let tree:x = counter add 1", "line 1: not in the grammar"),
    (b"counter:a add b", "line 1: name not known here"),
    (b"stack:a push\n007", "line 2: number out of range"),
];

/// Texts with the canonical texts of their jobs, which have the names of the objects that their leaves call.
const CANONICAL: &[Row] = &[
    (
        b"counter:a add 1 counter:b add 2 counter add 4 counter:a add 8",
        "seq { seq { counter:a add 1 counter:b add 2 } seq { counter add 4 counter:a add 8 } }\n",
    ),
    (
        b"let a = counter:c add 5 tree:c insert a",
        "seq { let v0 = counter:c add 5 tree:c insert v0 }\n",
    ),
    (
        b"for 0 { counter:x add 1 } counter:y add 1",
        "counter:y add 1\n",
    ),
    (
        b"pfor 2 { queue:q insert @ queue:r take }",
        "par { seq { queue:q insert 0 queue:r take } seq { queue:q insert 1 queue:r take } }\n",
    ),
    (
        b"counter:let add 1 counter:work add 2",
        "seq { counter:let add 1 counter:work add 2 }\n",
    ),
    (
        b"tree:b find 1 tree:b next 2 stack:b pop",
        "seq { seq { tree:b find 1 tree:b next 2 } stack:b pop }\n",
    ),
];

/// The numbers of the objects that the leaves call, and the names of the job.
struct Objects;

impl Telling for Objects {
    fn tell(alloc: Global, job: &Job) -> Result<Vec<u8>, AllocError> {
        let mut told = String::new(alloc);
        for act in job.acts() {
            match act {
                Act::Work(_) => told.push_str("- ")?,
                Act::Call(op) => {
                    let number = op.number();
                    write!(told, "{number} ")?;
                }
            }
        }
        told.push_str("/")?;
        let mut told = told.into_bytes();
        for name in job.names() {
            told.push(b' ')?;
            told.extend_from_slice(name.bytes())?;
        }
        Ok(told)
    }
}

#[test]
fn leaves_call_these_objects(rt: HostRuntime) -> Result<(), Fail> {
    all_hold(first_mistold::<Objects>(rt.alloc(), OBJECTS)?)
}

#[test]
fn names_have_these_texts(rt: HostRuntime) -> Result<(), Fail> {
    all_hold(first_uncanonical(rt.alloc(), CANONICAL)?)
}
