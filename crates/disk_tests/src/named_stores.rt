//! Stores and lists that a host opens by their paths.
ghost use Rattle.std.specs.Prelude.{◌≡◌, None};

use crate::shared::{bytes_of, disk_of, path_of, put};
use agent_base::{Fault, MemSource};
use disk_model::{Disk, MemDisk};
use hosts::{Host, MemHost, RealHost, StoreFault, hold_streams};
use std::alloc::Global;
use std::fs;
use std::path::AsPath;
use std::test::Fail;

// What a store has, before these bytes are written behind it and synced.
fn append<D: Disk>(alloc: Global, store: &mut D, bytes: &[u8]) -> Result<Vec<u8>, Fail> {
    let found = bytes_of(alloc, store)?;
    if put(store, found.len() as u64, bytes) && store.sync().is_ok() {
        return Ok(found);
    }
    Ok(Vec::from_slice(alloc, b"not written")?)
}

// Opens the store of a path, appends to it and closes it: what it had.
fn visit<H: Host>(alloc: Global, host: &mut H, path: &str, bytes: &[u8]) -> Result<Vec<u8>, Fail>
    requires { H.store_out host.old ≡ None }
    ensures { H.store_out host.new ≡ None }
{
    let Ok(mut store) = host.open_store(path) else {
        return Ok(Vec::from_slice(alloc, b"not opened")?);
    };
    let found = append(alloc, &mut store, bytes);
    host.close_store(path, store);
    found
}

// Whether the store of a path had these bytes before the others are written behind them.
fn had<H: Host>(
    alloc: Global,
    host: &mut H,
    path: &str,
    want: &[u8],
    more: &[u8],
) -> Result<bool, Fail>
    requires { H.store_out host.old ≡ None }
    ensures { H.store_out host.new ≡ None }
{
    Ok(visit(alloc, host, path, more)?.as_slice() == want)
}

// One store of this path.
fn store_at(alloc: Global, path: &str, bytes: &[u8]) -> Result<Vec<(String, MemDisk)>, Fail> {
    let disk = disk_of(alloc, bytes, None, &[])?;
    let mut stores = Vec::new(alloc);
    stores.push((String::from_str(alloc, path)?, disk))?;
    Ok(stores)
}

#[test]
fn a_store_in_memory_is_found_again(rt: HostRuntime) -> Result<(), Fail> {
    let alloc = rt.alloc();
    let mut host = MemHost::new(Vec::new(alloc), store_at(alloc, "a", b"abcd")?);
    assert!(rt; had(alloc, &mut host, "a", b"abcd", b"XY")?);
    assert!(rt; had(alloc, &mut host, "b", b"", b"Z")?);
    assert!(rt; had(alloc, &mut host, "a", b"abcdXY", b"")?);
    assert!(rt; had(alloc, &mut host, "b", b"Z", b"")?);
    Ok(())
}

// Whether a new store is told before it is opened, while it is out, and once it is closed.
fn told(alloc: Global) -> (bool, bool, bool) {
    let mut host = MemHost::new(Vec::new(alloc), Vec::new(alloc));
    let before = host.store("a").is_some();
    let opened = host.open_store("a");
    let meanwhile = host.store("a").is_some();
    if let Ok(store) = opened {
        host.close_store("a", store);
    }
    let after = host.store("a").is_some() && host.store("b").is_none();
    (before, meanwhile, after)
}

#[test]
fn a_store_that_is_out_is_not_told(rt: HostRuntime) -> Result<(), Fail> {
    assert!(rt; told(rt.alloc()) == (false, false, true));
    Ok(())
}

// Whether a list in memory is opened at first, and not again.
fn is_opened_once(alloc: Global) -> Result<bool, Fail> {
    let mut lists = Vec::new(alloc);
    let source = MemSource::new(Vec::from_slice(alloc, b"com")?, Vec::new(alloc));
    lists.push((String::from_str(alloc, "a")?, source))?;
    let mut host = MemHost::new(lists, Vec::new(alloc));
    let is_opened = host.open_list("a").is_ok();
    Ok(is_opened && matches!(host.open_list("a"), Err(Fault::Failed)))
}

#[test]
fn a_list_in_memory_is_opened_once(rt: HostRuntime) -> Result<(), Fail> {
    assert!(rt; is_opened_once(rt.alloc())?);
    Ok(())
}

// Whether a new store of the system keeps what is written in three visits.
fn is_whole(rt: HostRuntime, path: &str) -> Result<bool, Fail> {
    let alloc = rt.alloc();
    let mut host = RealHost::new(rt);
    Ok(
        had(alloc, &mut host, path, b"", b"abc")?
            && had(alloc, &mut host, path, b"abc", b"de")?
            && had(alloc, &mut host, path, b"abcde", b"")?,
    )
}

#[test]
fn a_store_of_the_system_is_not_cut_short(rt: HostRuntime) -> Result<(), Fail> {
    let path = path_of(&rt, "named_store")?;
    let is_whole = is_whole(rt, path.path_text())?;
    fs::remove_file(&rt, &path)?;
    assert!(rt; is_whole);
    Ok(())
}

// A path that is longer than the system takes.
fn long_path(alloc: Global) -> Result<String, Fail> {
    let mut path = String::new(alloc);
    for _ in 0..5000 {
        path.push('a')?;
    }
    Ok(path)
}

// Why the system opens no store of this path, if it opens none.
fn refusal(rt: HostRuntime, path: &str) -> Option<StoreFault> {
    let mut host = RealHost::new(rt);
    host.open_store(path).err()
}

#[test]
fn a_store_that_cannot_be_opened_is_a_failure(rt: HostRuntime) -> Result<(), Fail> {
    let long = long_path(rt.alloc())?;
    assert!(rt; refusal(rt, "/") == Some(StoreFault::Failed));
    assert!(rt; refusal(rt, "/dev/null/store") == Some(StoreFault::Failed));
    assert!(rt; refusal(rt, long.as_str()) == Some(StoreFault::Failed));
    Ok(())
}

// Whether a store that is open is refused to another host, and is opened again once it is closed.
fn is_alone(rt: HostRuntime, path: &str) -> bool {
    let mut first = RealHost::new(rt);
    let Ok(store) = first.open_store(path) else {
        return false;
    };
    let meanwhile = refusal(rt, path);
    first.close_store(path, store);
    meanwhile == Some(StoreFault::InUse) && refusal(rt, path).is_none()
}

#[test]
fn a_store_that_is_open_is_refused(rt: HostRuntime) -> Result<(), Fail> {
    let path = path_of(&rt, "open_store")?;
    let is_alone = is_alone(rt, path.path_text());
    fs::remove_file(&rt, &path)?;
    assert!(rt; is_alone);
    Ok(())
}

#[test]
fn streams_are_held(rt: HostRuntime) -> Result<(), Fail> {
    assert!(rt; hold_streams(&rt).is_ok());
    Ok(())
}
