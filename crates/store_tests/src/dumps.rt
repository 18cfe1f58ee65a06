//! What a dump of a store prints, and how it ends.
use crate::bodies::Edit::{Grant, Insert, Mode, Put, Weigh};
use crate::bodies::{Edit, change_of, list_of};
use File::{Cut, Empty, Store};
use Printed::{Lines, Text};
use agent_base::MemSink;
use disk_model::{Disk, MemDisk};
use journal::OpenFault;
use std::alloc::Global;
use std::test::Fail;
use store_dumps::{DumpFault, dump};

/// The file of a store.
#[derive(Clone, Copy)]
enum File {
    Empty,
    /// A store of one durable change.
    Store(&'static [Edit]),
    /// A store of one durable change, cut to 100 bytes.
    Cut(&'static [Edit]),
}

/// What is printed.
#[derive(Clone, Copy)]
enum Printed {
    Text(&'static str),
    /// Whole lines, one at least.
    Lines,
}

/// A dump of a file into a sink of so much room, with the numbers of its calls that fail.
#[derive(Clone, Copy)]
struct Case {
    name: &'static str,
    file: File,
    room: usize,
    fails: &'static [u64],
    answer: Result<(), DumpFault>,
    printed: Printed,
}

const CASES: &[Case] = &[
    Case {
        name: "the worked store",
        file: Store(&[Put("k", "v")]),
        room: 4_096,
        fails: &[],
        answer: Ok(()),
        printed: Text(
            "{\"bit\":false,\"key\":\"k\",\"origin\":\"https://a.test\",\"row\":\"area\",\"top\":\"https://a.test\",\
                \"value\":\"v\"}\n",
        ),
    },
    Case {
        name: "rows of all kinds stand in the order of a snapshot",
        file: Store(&[
            Grant("https://y.test", false),
            Grant("https://x.test", true),
            Insert(true, 0, "n", 1),
            Insert(false, 0, "m", 2),
            Mode,
            Put("l", "\""),
            Put("k", ""),
        ]),
        room: 4_096,
        fails: &[],
        answer: Ok(()),
        printed: Text(concat!(
            "{\"bit\":false,\"key\":\"l\",\"origin\":\"https://a.test\",\"row\":\"area\",\"top\":\"https://a.test\",\
                \"value\":\"\\\"\"}\n",
            "{\"bit\":false,\"key\":\"k\",\"origin\":\"https://a.test\",\"row\":\"area\",\"top\":\"https://a.test\",\
                \"value\":\"\"}\n",
            "{\"bit\":false,\"origin\":\"https://a.test\",\"row\":\"mode\",\"top\":\"https://a.test\"}\n",
            "{\"bit\":null,\"creation\":1,\"domain\":\"a.test\",\"expiry\":9,\"host_only\":false,\"http_only\":false,\
                \"name\":\"m\",\"path\":\"/\",\"row\":\"cookie\",\"same_site\":\"default\",\"secure\":true,\"top\":null,\
                \"value\":\"xx\"}\n",
            "{\"bit\":true,\"creation\":1,\"domain\":\"w.test\",\"expiry\":9,\"host_only\":false,\"http_only\":false,\
                \"name\":\"n\",\"path\":\"/\",\"row\":\"cookie\",\"same_site\":\"default\",\"secure\":true,\
                \"top\":\"https://a.test\",\"value\":\"x\"}\n",
            "{\"granted\":false,\"row\":\"grant\",\"site\":\"https://y.test\",\"top\":\"https://a.test\",\"until\":9}\n",
            "{\"granted\":true,\"row\":\"grant\",\"site\":\"https://x.test\",\"top\":\"https://a.test\",\"until\":9}\n",
        )),
    },
    Case {
        name: "a bucket without an area",
        file: Store(&[Mode]),
        room: 4_096,
        fails: &[],
        answer: Ok(()),
        printed: Text(
            "{\"bit\":false,\"origin\":\"https://a.test\",\"row\":\"mode\",\"top\":\"https://a.test\"}\n",
        ),
    },
    Case {
        name: "a new store",
        file: Empty,
        room: 16,
        fails: &[],
        answer: Ok(()),
        printed: Text(""),
    },
    Case {
        name: "a mode that is set twice",
        file: Store(&[Put("k", "v"), Mode, Mode]),
        room: 4_096,
        fails: &[],
        answer: Err(DumpFault::Open(OpenFault::NotAStore(236))),
        printed: Text(""),
    },
    Case {
        name: "a store that was cut",
        file: Cut(&[Mode]),
        room: 4_096,
        fails: &[],
        answer: Err(DumpFault::Open(OpenFault::NotAStore(0))),
        printed: Text(""),
    },
    Case {
        name: "a write fault leaves a part from the start",
        file: Store(&[Put("k", "v"), Mode]),
        room: 10,
        fails: &[],
        answer: Err(DumpFault::Write),
        printed: Text("{\"bit\":fal"),
    },
    Case {
        name: "so many bytes that the first line is written by itself, before the fault",
        file: Store(&[Weigh(65_536), Mode]),
        room: 80_000,
        fails: &[2],
        answer: Err(DumpFault::Write),
        printed: Lines,
    },
];

// A store of a version with one frame of changes, field by field.
fn store_of(alloc: Global, version: u8, digest: &[u8; 32], body: &[u8]) -> Result<Vec<u8>, Fail> {
    let mut store = Vec::new(alloc);
    store.extend_from_slice(b"\x01PBSTORE")?;
    store.extend_from_slice(&[version, 0, 0, 0])?;
    store.extend_from_slice(digest)?;
    store.extend_from_slice(b"\x01\x01\0\0\0\0\0\0\0\x80\0\0\0\0\0\0\0")?;
    store.extend_from_slice(&[0; 67])?;
    store.extend_from_slice(b"\x01\x01\x01\0\0\0\0\0\0\0")?;
    store.extend_from_slice(&(body.len() as u64).to_le_bytes())?;
    store.extend_from_slice(body)?;
    store.push(0)?;
    Ok(store)
}

fn store_with(alloc: Global, version: u8, edits: &[Edit]) -> Result<Vec<u8>, Fail> {
    let list = list_of(alloc, b"")?;
    let body = change_of(alloc, edits)?;
    store_of(alloc, version, &list.digest(), body.as_slice())
}

fn bytes_of(alloc: Global, file: File) -> Result<Vec<u8>, Fail> {
    match file {
        Empty => Ok(Vec::new(alloc)),
        Store(edits) => store_with(alloc, 1, edits),
        Cut(edits) => {
            let mut bytes = store_with(alloc, 1, edits)?;
            bytes.truncate(100);
            Ok(bytes)
        }
    }
}

fn disk_of(alloc: Global, file: File) -> Result<MemDisk, Fail> {
    let bytes = bytes_of(alloc, file)?;
    Ok(MemDisk::new(alloc, bytes, Vec::new(alloc), Vec::new(alloc)))
}

fn sink_of(alloc: Global, case: &Case) -> Result<MemSink, Fail> {
    Ok(MemSink::new(alloc, case.room, Vec::from_slice(alloc, case.fails)?)?)
}

fn is_printed(bytes: &[u8], printed: Printed) -> bool {
    match printed {
        Text(text) => bytes == text.as_bytes(),
        Lines => bytes.last() == Some(&b'\n'),
    }
}

// Whether a dump ends and prints as it has to.
fn is_dumped(alloc: Global, case: &Case) -> Result<bool, Fail> {
    let list = list_of(alloc, b"")?;
    let mut disk = disk_of(alloc, case.file)?;
    let mut out = sink_of(alloc, case)?;
    let answer = dump(alloc, &mut disk, &list, &mut out);
    Ok(answer == case.answer && is_printed(out.bytes(), case.printed))
}

#[test]
fn dumps_end_and_print(rt: HostRuntime) -> Result<(), Fail> {
    let alloc = rt.alloc();
    for case in CASES {
        assert!(rt; is_dumped(alloc, case)?, "{}", case.name);
    }
    Ok(())
}

#[test]
fn the_worked_store_has_199_bytes(rt: HostRuntime) -> Result<(), Fail> {
    let file = store_with(rt.alloc(), 1, &[Put("k", "v")])?;
    assert_eq!(rt; file.len(), 199);
    Ok(())
}

// All bytes of a disk.
fn held(alloc: Global, disk: &mut MemDisk) -> Result<Vec<u8>, Fail> {
    let mut bytes = Vec::new(alloc);
    let Ok(len) = disk.len() else {
        return Ok(bytes);
    };
    bytes.resize(len as usize, 0)?;
    let _ = disk.read_at(0, &mut bytes);
    Ok(bytes)
}

#[test]
fn a_dump_leaves_the_worked_store_of_version_2(rt: HostRuntime) -> Result<(), Fail> {
    let alloc = rt.alloc();
    let list = list_of(alloc, b"")?;
    let mut disk = disk_of(alloc, Store(&[Put("k", "v")]))?;
    let mut out = MemSink::new(alloc, 4_096, Vec::new(alloc))?;
    assert!(rt; dump(alloc, &mut disk, &list, &mut out) == Ok(()));
    let wanted = store_with(alloc, 2, &[Put("k", "v")])?;
    assert!(rt; held(alloc, &mut disk)?.as_slice() == wanted.as_slice());
    Ok(())
}
