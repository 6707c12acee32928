//! Sources that are read to their end, and sinks that are written whole.

use sep_io::{
    MemSink, MemSource, ReadEnd, Sink, StdSink, StdSource, WholeSink, WholeSource, read_all,
    write_all,
};
use std::alloc::Global;
use std::io::Cursor;
use std::test::Fail;

const SEVEN: &[u8] = b"abcdefg";

// How it ends to read seven bytes from a source, with a limit.
fn end_of(read: Result<Vec<u8>, ReadEnd>) -> &'static str {
    match read {
        Ok(bytes) if bytes.as_slice() == SEVEN => "all",
        Ok(_) => "others",
        Err(ReadEnd::Fault) => "fault",
        Err(ReadEnd::TooLong) => "too long",
        Err(ReadEnd::Memory) => "memory",
    }
}

// The same where three bytes at most come at a time, and a read fails.
fn read_seven(alloc: Global, fail: u64, limit: u64) -> Result<&'static str, Fail> {
    let fails = Vec::from_slice(alloc, &[fail])?;
    let mut source = MemSource::new(Vec::from_slice(alloc, SEVEN)?, 3, fails);
    Ok(end_of(read_all(alloc, &mut source, limit)))
}

// The same of a source that never fails, and of a reader.
fn read_whole(alloc: Global) -> Result<&'static str, Fail> {
    let mut source = WholeSource::new(Vec::from_slice(alloc, SEVEN)?);
    Ok(end_of(read_all(alloc, &mut source, 7)))
}

fn read_standard(alloc: Global) -> &'static str {
    let mut source = StdSource::new(SEVEN);
    end_of(read_all(alloc, &mut source, 7))
}

#[test]
fn a_source_is_read_to_its_end_or_to_its_first_fault(rt: HostRuntime) -> Result<(), Fail> {
    for (fail, limit, end) in [
        (9, 7, "all"),
        (9, 8, "all"),
        (9, u64::MAX, "all"),
        (9, 6, "too long"),
        (9, 0, "too long"),
        (0, 7, "fault"),
        (2, 7, "fault"),
        (3, 7, "fault"),
        (2, 5, "too long"),
    ] {
        let found = read_seven(rt.alloc(), fail, limit)?;
        assert!(rt; found == end, "read {fail}, limit {limit}");
    }
    let whole = read_whole(rt.alloc())?;
    assert!(rt; whole == "all");
    assert!(rt; read_standard(rt.alloc()) == "all");
    Ok(())
}

// Whether seven bytes are written whole, where these bytes were written and four at most go at a time.
fn write_seven(alloc: Global, room: usize, fail: u64, front: &[u8]) -> Result<Option<bool>, Fail> {
    let mut sink = MemSink::new(alloc, room, 4, Vec::from_slice(alloc, &[fail])?)?;
    let whole = write_all(&mut sink, SEVEN).is_ok();
    Ok((sink.written() == front).then_some(whole))
}

// Whether a sink with too little room takes a front, and nothing is no fault.
fn fills(alloc: Global) -> Result<bool, Fail> {
    let mut sink = WholeSink::new(alloc, 5)?;
    let whole = write_all(&mut sink, SEVEN).is_ok();
    Ok(!whole && sink.written() == b"abcde".as_slice() && sink.write(b"").is_ok())
}

// Whether a writer takes what it has room for.
fn fills_standard() -> bool {
    let mut room = [0u8; 5];
    let mut sink = StdSink::new(Cursor::new(room.as_mut_slice()));
    write_all(&mut sink, b"abc").is_ok() && write_all(&mut sink, b"defg").is_err()
}

#[test]
fn what_went_out_before_a_fault_is_a_front(rt: HostRuntime) -> Result<(), Fail> {
    for (room, fail, whole, front) in [
        (9, 9, true, SEVEN),
        (7, 9, true, SEVEN),
        (7, 1, false, b"abcd"),
        (7, 0, false, b""),
        (5, 9, false, b"abcde"),
        (0, 9, false, b""),
    ] {
        let found = write_seven(rt.alloc(), room, fail, front)?;
        assert!(rt; found == Some(whole), "room {room}");
    }
    let fills_whole = fills(rt.alloc())?;
    assert!(rt; fills_whole);
    assert!(rt; fills_standard());
    Ok(())
}
