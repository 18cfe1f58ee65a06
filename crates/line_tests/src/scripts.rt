//! Scripts from outside: the actions of their lines, and their first faults.
use agent_base::MemSource;
use script_actions::{Line, Step};
use script_lines::{Script, ScriptFault};
use std::alloc::Global;
use std::mem::size_of;
use std::test::Fail;

// What reading these bytes answers, where cuts are allowed.
pub fn script_of(alloc: Global, bytes: Vec<u8>) -> Result<Script, ScriptFault> {
    read_script(alloc, bytes, true)
}

// What reading these bytes answers, where cuts are allowed or not.
pub fn read_script(
    alloc: Global,
    bytes: Vec<u8>,
    cuts_allowed: bool,
) -> Result<Script, ScriptFault> {
    let mut source = MemSource::new(bytes, Vec::new(alloc));
    Script::read(alloc, &mut source, cuts_allowed)
}

// The message of a fault, through a copy of it.
pub fn message_of(alloc: Global, why: &ScriptFault) -> Result<String, Fail> {
    let copy = why.copy(alloc)?;
    Ok(format!(in alloc; "{copy}")?)
}

// The message of the first fault of a text, and nothing where it is a script.
fn fault_of(alloc: Global, text: &[u8]) -> Result<String, Fail> {
    let bytes = Vec::from_slice(alloc, text)?;
    match script_of(alloc, bytes) {
        Ok(_) => Ok(String::new(alloc)),
        Err(why) => message_of(alloc, &why),
    }
}

const FAULTS: &[(&[u8], &[u8])] = &[
    (b"x", b"script line 1: not json"),
    (
        b"{\"do\":\"tick\",\"s\":1}\n\nx",
        b"script line 3: not json",
    ),
    (
        b"\n \t\r\n{\"do\":\"tock\",\"a\":1}\nx",
        b"script line 3: unknown action",
    ),
    (b"[]\n", b"script line 1: bad field do"),
    (b"{\"do\":1}", b"script line 1: bad field do"),
    (
        b"{\"do\":\"open\",\"tab\":0,\"z\":0}",
        b"script line 1: bad field tab",
    ),
    (
        b"{\"do\":\"open\",\"tab\":65536}",
        b"script line 1: bad field tab",
    ),
    (
        b"{\"do\":\"open\",\"tab\":1e0}",
        b"script line 1: bad field tab",
    ),
    (
        b"{\"do\":\"open\",\"tab\":1,\"url\":\"ftp://a\"}",
        b"script line 1: bad field url",
    ),
    (
        b"{\"do\":\"get\",\"tab\":1,\"z\":0}",
        b"script line 1: bad field key",
    ),
    (
        b"{\"do\":\"get\",\"tab\":1,\"key\":\"\",\"z\":0,\"a\":0}",
        b"script line 1: bad field a",
    ),
    (
        b"{\"do\":\"close\",\"tab\":1,\"head\":[]}",
        b"script line 1: bad field head",
    ),
    (
        b"{\"do\":\"set\",\"value\":1,\"key\":2,\"tab\":1}",
        b"script line 1: bad field key",
    ),
    (
        b"{\"do\":\"tick\",\"s\":1,\"z\":0,\"a\":0}",
        b"script line 1: bad field a",
    ),
    (
        b"{\"do\":\"tick\",\"s\":1.0}",
        b"script line 1: bad field s",
    ),
    (b"{\"do\":\"tick\",\"s\":-0}", b"script line 1: bad field s"),
    (
        b"{\"do\":\"tick\",\"s\":null}",
        b"script line 1: bad field s",
    ),
    (
        b"{\"do\":\"tick\",\"s\":1000000001}",
        b"script line 1: bad field s",
    ),
    (
        b"{\"do\":\"tick\",\"s\":1,\"s\":\"1\"}",
        b"script line 1: bad field s",
    ),
    (
        b"{\"do\":\"restart\",\"tab\":1}",
        b"script line 1: bad field tab",
    ),
    (
        b"{\"do\":\"tick\",\"s\":1,\"\\n\":0}",
        b"script line 1: bad field \n",
    ),
    (
        b"{\"do\":\"get\",\"tab\":1,\"key\":\"\\ud800\"}",
        b"script line 1: not json",
    ),
    (
        b"\xef\xbb\xbf{\"do\":\"tick\",\"s\":1}",
        b"script line 1: not json",
    ),
    (b"\n\"\xff\"", b"script line 2: not utf-8"),
    (b"{\"do\":\"tick\",\"s\":1e400}", b"script line 1: not json"),
];

fn has_message(alloc: Global, text: &[u8], want: &[u8]) -> Result<bool, Fail> {
    Ok(fault_of(alloc, text)?.as_bytes() == want)
}

#[test]
fn first_fault_of_a_script(rt: HostRuntime) -> Result<(), Fail> {
    let alloc = rt.alloc();
    for (place, (text, want)) in FAULTS.iter().enumerate() {
        assert!(rt; has_message(alloc, text, want)?, "fault {place}");
    }
    Ok(())
}

// A line's number, and what it asks for.
fn line_text(alloc: Global, line: &Line) -> Result<String, Fail> {
    let number = line.number;
    match &line.step {
        Step::Act(action) => Ok(format!(in alloc; "{number} {action:?}")?),
        Step::Restart => Ok(format!(in alloc; "{number} Restart")?),
    }
}

// The same of each line.
pub fn lines_text(alloc: Global, script: &Script) -> Result<String, Fail> {
    let mut shown = String::new(alloc);
    for line in &script.lines {
        shown.push_str(line_text(alloc, line)?.as_str())?;
        shown.push('\n')?;
    }
    Ok(shown)
}

// The lines of a script that a text is, through a copy of it.
fn read_lines(alloc: Global, text: &[u8]) -> Result<String, Fail> {
    let bytes = Vec::from_slice(alloc, text)?;
    let script = script_of(alloc, bytes)?;
    let copy = script.copy(alloc)?;
    lines_text(alloc, &copy)
}

const LINES: &[u8] = b"{\"do\":\"open\",\"tab\":65535,\"url\":\"https://a.test\"}\r\n\n\
    {\"key\":\"k\",\"do\":\"get\",\"tab\":1}";

const ACTIONS: &str = "1 Open { tab: 65535, url: Address { text: \"https://a.test/\", \
    https: true, ip: false, host: \"a.test\", port: 443, path: \"/\" }, opener: None, \
    noopener: false, method: Get, head: [] }\n\
    3 Get { at: Label { tab: 1, frame: 0 }, area: Local, key: \"k\" }\n";

#[test]
fn lines_of_a_script(rt: HostRuntime) -> Result<(), Fail> {
    let shown = read_lines(rt.alloc(), LINES)?;
    assert!(rt; shown.as_str() == ACTIONS);
    Ok(())
}

#[test]
fn a_line_takes_72_bytes(rt: HostRuntime) {
    assert_eq!(rt; size_of::<Line>(), 72);
}

// Whether reading so many of a byte has this fault, or none.
fn has_fault(
    alloc: Global,
    byte: u8,
    count: usize,
    want: Option<ScriptFault>,
) -> Result<bool, Fail> {
    Ok(script_of(alloc, vec![in alloc; byte; count]?).err() == want)
}

#[test]
fn limit_of_a_line_to_its_last_byte(rt: HostRuntime) -> Result<(), Fail> {
    let alloc = rt.alloc();
    let fault = Some(ScriptFault::NotJson(1));
    assert!(rt; has_fault(alloc, b'x', 1_048_576, fault)?);
    let fault = Some(ScriptFault::LineTooLong(1));
    assert!(rt; has_fault(alloc, b'x', 1_048_577, fault)?);
    assert!(rt; has_fault(alloc, b' ', 1_048_577, None)?);
    Ok(())
}

// A source of blanks whose second read fails.
fn failing_source(alloc: Global) -> Result<MemSource, Fail> {
    let fails = Vec::from_slice(alloc, &[2])?;
    Ok(MemSource::new(vec![in alloc; b' '; 5000]?, fails))
}

fn fault_is_told(alloc: Global) -> Result<bool, Fail> {
    let mut source = failing_source(alloc)?;
    Ok(Script::read(alloc, &mut source, true).err() == Some(ScriptFault::ReadFault))
}

#[test]
fn source_fails_in_mid_stream(rt: HostRuntime) -> Result<(), Fail> {
    assert!(rt; fault_is_told(rt.alloc())?);
    Ok(())
}
