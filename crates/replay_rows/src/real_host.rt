//! The host of the program, over a real file.
use agent_base::{Fault, read_all};
use hosts::{Host, RealHost};
use std::alloc::Global;
use std::test::Fail;
use std::{env, fs};

// Whether the list of a path has these bytes.
fn has_list<H: Host>(alloc: Global, host: &mut H, path: &str, want: &[u8]) -> bool {
    let Ok(mut list) = host.open_list(path) else {
        return false;
    };
    let read = read_all(alloc, &mut list, want.len());
    host.close_list(list);
    matches!(&read, Ok(bytes) if bytes.as_slice() == want)
}

#[test]
fn a_real_list_is_read_and_an_absent_one_is_a_fault(rt: HostRuntime) -> Result<(), Fail> {
    let alloc = rt.alloc();
    let path = env::temp_dir(&rt)?.join(alloc, "cuvandil-list-of-a-test")?;
    let Some(name) = path.to_str() else {
        return Ok(());
    };
    fs::write(&rt, name, b"com\n")?;
    let mut host = RealHost::new(rt);
    let is_read = has_list(alloc, &mut host, name, b"com\n");
    fs::remove_file(&rt, name)?;
    assert!(rt; is_read);
    assert!(rt; matches!(host.open_list(name), Err(Fault::Failed)));
    Ok(())
}
