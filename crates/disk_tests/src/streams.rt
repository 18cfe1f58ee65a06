//! Calls with ample memory, faults in mid-stream, and calls that are interrupted.
use crate::interrupted::Interrupted;
use agent_base::{Failed, MemSink, MemSource, ReadAll, ReadSource, WriteSink, read_all, write_all};
use std::alloc::Global;
use std::test::Fail;

// The bytes `abc`, so many times.
fn repeated(alloc: Global, times: usize) -> Result<Vec<u8>, Fail> {
    let mut bytes = Vec::new(alloc);
    for _ in 0..times {
        bytes.extend_from_slice(b"abc")?;
    }
    Ok(bytes)
}

// A stream of so many times `abc`, the numbers of its calls that fail, a limit, and how many bytes
// are read to its end or why they are not.
const READS: &[(usize, &[u64], usize, Result<usize, ReadAll>)] = &[
    (0, &[], 0, Ok(0)),
    (3, &[], 9, Ok(9)),
    (3, &[], 8, Err(ReadAll::TooLong)),
    (3, &[1], 9, Err(ReadAll::Failed)),
    (5000, &[2], 20000, Err(ReadAll::Failed)),
    (5000, &[2], 4000, Err(ReadAll::TooLong)),
    (5000, &[9], 15000, Ok(15000)),
];

// What reading a source to its end answers, whose calls of these numbers fail.
fn reading(
    alloc: Global,
    times: usize,
    fails: &[u64],
    limit: usize,
) -> Result<Result<usize, ReadAll>, Fail> {
    let fails = Vec::from_slice(alloc, fails)?;
    let mut source = MemSource::new(repeated(alloc, times)?, fails);
    match read_all(alloc, &mut source, limit) {
        Ok(bytes) => Ok(Ok(bytes.len())),
        Err(why) => Ok(Err(why)),
    }
}

#[test]
fn reads_to_the_end_or_names_the_fault(rt: HostRuntime) -> Result<(), Fail> {
    let alloc = rt.alloc();
    for (times, fails, limit, want) in READS {
        let found = reading(alloc, *times, fails, *limit)?;
        assert!(rt; found == *want, "{times} times within {limit}");
    }
    Ok(())
}

// The room of a sink, the numbers of its calls that fail, whether it takes six bytes, and those
// that it has then.
const WRITES: &[(usize, &[u64], Result<(), Failed>, &[u8])] = &[
    (6, &[], Ok(()), b"abcabc"),
    (9, &[], Ok(()), b"abcabc"),
    (5, &[], Err(Failed), b"abcab"),
    (6, &[1], Err(Failed), b""),
    (6, &[2], Ok(()), b"abcabc"),
];

// Whether a sink answers so to six bytes, and has these then.
fn is_taken(
    alloc: Global,
    room: usize,
    fails: &[u64],
    want: Result<(), Failed>,
    taken: &[u8],
) -> Result<bool, Fail> {
    let fails = Vec::from_slice(alloc, fails)?;
    match MemSink::new(alloc, room, fails) {
        Ok(mut sink) => Ok(write_all(&mut sink, b"abcabc") == want && sink.bytes() == taken),
        Err(_) => Ok(false),
    }
}

#[test]
fn takes_what_fits_and_fails_in_mid_stream(rt: HostRuntime) -> Result<(), Fail> {
    let alloc = rt.alloc();
    for (room, fails, want, taken) in WRITES {
        let found = is_taken(alloc, *room, fails, *want, taken)?;
        assert!(rt; found, "in a room of {room}");
    }
    Ok(())
}

// Whether bytes of std are read to their end.
fn is_read(alloc: Global) -> bool {
    let mut source = ReadSource::new(&b"abc"[..]);
    match read_all(alloc, &mut source, 3) {
        Ok(bytes) => bytes.as_slice() == b"abc".as_slice(),
        Err(_) => false,
    }
}

#[test]
fn adapters_pass_bytes_through(rt: HostRuntime) -> Result<(), Fail> {
    assert!(rt; is_read(rt.alloc()));
    let mut sink = WriteSink::new(rt.stderr());
    assert!(rt; write_all(&mut sink, b"written to standard error\n").is_ok());
    Ok(())
}

// Whether bytes of std are read to their end where so many calls are interrupted first, and no
// fault is counted.
fn is_read_again(alloc: Global, interruptions: u32) -> bool {
    let mut source = ReadSource::new(Interrupted::new(&b"abc"[..], interruptions));
    match read_all(alloc, &mut source, 3) {
        Ok(bytes) => bytes.as_slice() == b"abc".as_slice() && source.faults() == 0,
        Err(_) => false,
    }
}

// What stands in a room of six bytes after `abc` was written to it, where so many calls are
// interrupted first.
fn written_again(interruptions: u32) -> Result<[u8; 6], Failed> {
    let mut room = [b'.'; 6];
    let mut sink = WriteSink::new(Interrupted::new(&mut room[..], interruptions));
    write_all(&mut sink, b"abc")?;
    Ok(room)
}

#[test]
fn an_interrupted_call_is_made_again(rt: HostRuntime) -> Result<(), Fail> {
    for interruptions in [0, 1, 3] {
        assert!(rt; is_read_again(rt.alloc(), interruptions), "{interruptions}");
        assert!(rt;
            written_again(interruptions) == Ok(*b"abc..."),
            "{interruptions}"
        );
    }
    Ok(())
}
