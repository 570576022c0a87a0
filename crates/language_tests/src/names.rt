//! Names of both kinds: those of objects, and the words of scripts.

use std::test::Fail;

#[test]
fn names_have_their_bytes(rt: HostRuntime) -> Result<(), Fail> {
    let object = job_names::Name::of(b"a_9".to_vec(rt.alloc())?);
    assert!(rt; object.bytes() == b"a_9".as_slice() && object.as_str() == "a_9");
    let word = batch_script::Name::of(b"\xff 9".to_vec(rt.alloc())?);
    assert!(rt; word.bytes() == b"\xff 9".as_slice());
    Ok(())
}
