//! The shelves and the sinks: each call once, and faults in mid-stream.
use bt_io::{
    Failed, MemShelf, MemSink, ReadErr, Shelf, Sink, StdShelf, StdSink, read_up_to, write_all,
};
use run_points::{NoPause, Pause, Point};
use std::alloc::{AllocError, Global};
use std::io::{self, Write};
use std::test::Fail;
use test_rows::all_hold;

/// The call of a shelf that fails, where call 0 chooses the file `abc` and each other gives one byte; the limit of the
/// first reading; and what a second reading, of which no call fails, gives behind it.
const READINGS: &[(u64, u32, &[u8])] = &[
    (1, 3, b"abc"),
    (2, 3, b"bc"),
    (4, 3, b""),
    (9, 0, b"bc"),
    (9, 2, b""),
    (9, 3, b""),
];

/// Whether a first reading with a limit ends as the failing call and the limit say, and a second one gives the rest.
fn is_read_so(alloc: Global, fails: u64, limit: u32, rest: &[u8]) -> Result<bool, AllocError> {
    let mut files = Vec::new(alloc);
    files.push(("a".to_string(alloc)?, b"abc".to_vec(alloc)?))?;
    let mut shelf = MemShelf::make(files, 1, vec![in alloc; fails]?);
    if shelf.choose("a").is_err() {
        return Ok(false);
    }
    let first = match read_up_to(alloc, &mut shelf, limit as usize) {
        Ok(bytes) => bytes.as_slice() == b"abc".as_slice(),
        Err(ReadErr::Failed) => fails < 9,
        Err(ReadErr::TooLong) => limit < 3,
        Err(ReadErr::Memory) => false,
    };
    match read_up_to(alloc, &mut shelf, 9) {
        Ok(bytes) => Ok(first && bytes.as_slice() == rest),
        Err(_) => Ok(false),
    }
}

/// The place of the first of these readings that goes otherwise, if there is one.
fn first_misread(alloc: Global) -> Result<Option<usize>, AllocError> {
    for (place, row) in READINGS.iter().enumerate() {
        let (fails, limit, rest) = *row;
        if !is_read_so(alloc, fails, limit, rest)? {
            return Ok(Some(place));
        }
    }
    Ok(None)
}

#[test]
fn a_reading_takes_at_most_a_byte_past_its_limit(rt: HostRuntime) -> Result<(), Fail> {
    all_hold(first_misread(rt.alloc())?)
}

/// The room of a sink that takes two bytes a write, the write that fails, and what is taken of `hello`.
const WRITINGS: &[(usize, u64, &[u8])] = &[
    (5, 9, b"hello"),
    (3, 9, b"hel"),
    (0, 9, b""),
    (5, 0, b""),
    (5, 1, b"he"),
];

/// Whether such a sink takes this, and says so where it is all.
fn is_written_so(alloc: Global, room: usize, fails: u64, taken: &[u8]) -> Result<bool, AllocError> {
    let mut sink = MemSink::make(alloc, room, 2, vec![in alloc; fails]?)?;
    let whole = write_all(&mut sink, b"hello").is_ok();
    Ok(whole == (taken.len() == 5) && sink.bytes() == taken)
}

/// The place of the first of these writings that goes otherwise, if there is one.
fn first_miswritten(alloc: Global) -> Result<Option<usize>, AllocError> {
    for (place, row) in WRITINGS.iter().enumerate() {
        let (room, fails, taken) = *row;
        if !is_written_so(alloc, room, fails, taken)? {
            return Ok(Some(place));
        }
    }
    Ok(None)
}

#[test]
fn a_writing_takes_the_front_that_fits(rt: HostRuntime) -> Result<(), Fail> {
    all_hold(first_miswritten(rt.alloc())?)
}

/// A writer that takes two bytes in all, and then none.
#[derive(Drop)]
struct Narrow(usize);

impl Write for Narrow {
    fn write(&mut self, buf: &[u8]) -> io::Result<usize> {
        let count = buf.len().min(self.0);
        self.0 -= count;
        Ok(count)
    }

    fn flush(&mut self) -> io::Result<()> {
        Ok(())
    }
}

/// Whether a sink over such a writer takes two bytes and then none, and a further byte is a fault.
fn is_full_at_two() -> bool {
    let mut sink = StdSink::make(Narrow(2));
    write_all(&mut sink, b"hi").is_ok()
        && sink.write(b"").is_ok()
        && matches!(sink.write(b"!"), Err(Failed))
}

#[test]
fn a_writer_that_is_full_is_a_fault(rt: HostRuntime) {
    assert!(rt; is_full_at_two());
}

#[test]
fn standard_input_is_chosen_and_no_file_that_is_not_there(rt: HostRuntime) {
    let mut shelf = StdShelf::make(&rt);
    let missing = shelf.choose("no file of this name").is_err();
    assert!(rt; missing && shelf.choose("-").is_ok());
}

/// Calls the pause as a worker that shares it does.
fn reach<P: Pause + Sync>(pause: &P, point: Point) {
    pause.at(point, 0);
}

#[test]
fn no_pause_returns() {
    for point in [
        Point::LeafStart(0),
        Point::Posted(1),
        Point::Won,
        Point::PieceStart(2),
    ] {
        reach(&NoPause, point);
    }
}
