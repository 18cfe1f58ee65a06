//! Two scripts in one input: where it is divided, and the first fault of several.
use crate::scripts::{lines_text, message_of};
use agent_base::MemSource;
use script_lines::{Script, ScriptFault};
use std::alloc::Global;
use std::test::Fail;

// What reading two scripts from these bytes answers.
fn read_two(alloc: Global, bytes: Vec<u8>) -> Result<(Script, Script), ScriptFault> {
    let mut source = MemSource::new(bytes, Vec::new(alloc));
    Script::read_two(alloc, &mut source)
}

// The lines of both scripts, with the divider between them, or the fault.
fn answer_of(alloc: Global, text: &[u8]) -> Result<String, Fail> {
    match read_two(alloc, Vec::from_slice(alloc, text)?) {
        Ok((first, second)) => {
            let mut shown = lines_text(alloc, &first)?;
            shown.push_str("===\n")?;
            shown.push_str(lines_text(alloc, &second)?.as_str())?;
            Ok(shown)
        }
        Err(why) => message_of(alloc, &why),
    }
}

const INPUTS: &[(&[u8], &[u8])] = &[
    // Either part may be empty, or have lines that are skipped.
    (b"===", b"===\n"),
    (b"===\n", b"===\n"),
    (b"\n===", b"===\n"),
    (b" \r\n\t\n===\n\r\n ", b"===\n"),
    // The divider stands at the start, at the end, and between lines.
    (b"===\n{\"do\":\"restart\"}", b"===\n2 Restart\n"),
    (b"{\"do\":\"restart\"}\n===", b"1 Restart\n===\n"),
    (
        b"{\"do\":\"tick\",\"s\":1}\n===\n{\"do\":\"restart\"}\n{\"do\":\"tick\",\"s\":2}\n",
        b"1 Tick { s: 1 }\n===\n3 Restart\n4 Tick { s: 2 }\n",
    ),
    (
        b"\n{\"do\":\"restart\"}\r\n\n===\n\n{\"do\":\"restart\"}\r\n",
        b"2 Restart\n===\n6 Restart\n",
    ),
    // A second one is a line of the second script, and no JSON.
    (b"===\n===", b"script line 2: not json"),
    (b"\n===\n\n===\n", b"script line 4: not json"),
    (
        b"===\n{\"do\":\"restart\"}\n===\nx",
        b"script line 3: not json",
    ),
    // Without a divider no line is looked at.
    (b"", b"script: no divider"),
    (b"\n", b"script: no divider"),
    (b"{\"do\":\"restart\"}", b"script: no divider"),
    (b"x\n\xff", b"script: no divider"),
    (b"==", b"script: no divider"),
    (b"====", b"script: no divider"),
    (b"=== ", b"script: no divider"),
    (b" ===", b"script: no divider"),
    (b"===\t\n", b"script: no divider"),
    (b"===\r\n{\"do\":\"restart\"}", b"script: no divider"),
    (b"==\n=", b"script: no divider"),
    (b"\"===\"", b"script: no divider"),
    // Such a line is none of JSON either.
    (b"=== \n===", b"script line 1: not json"),
    (b"===\r\n===\n", b"script line 1: not json"),
    // Neither script has cuts.
    (
        b"{\"do\":\"disk\",\"cuts\":[]}\n===",
        b"script line 1: bad field cuts",
    ),
    (
        b"===\n{\"do\":\"disk\",\"cuts\":[[1,0]]}",
        b"script line 2: bad field cuts",
    ),
    (
        b"{\"do\":\"restart\"}\n\n===\n\n{\"do\":\"disk\"}",
        b"script line 5: bad field cuts",
    ),
    (
        b"{\"do\":\"restart\"}\n{\"do\":\"disk\",\"cuts\":[]}\n===",
        b"script line 2: unknown action",
    ),
    (
        b"===\n{\"do\":\"restart\"}\n{\"do\":\"disk\",\"cuts\":[]}",
        b"script line 3: unknown action",
    ),
    // The faults of a line are those of one script, with its number in the input.
    (b"x\n===\ny", b"script line 1: not json"),
    (b"===\n\ny", b"script line 3: not json"),
    (
        b"\n===\n{\"do\":\"tock\"}",
        b"script line 3: unknown action",
    ),
    (b"===\n[]\nx", b"script line 2: bad field do"),
    (
        b"\n\n===\n{\"do\":\"restart\",\"a\":0}",
        b"script line 4: bad field a",
    ),
    (
        b"{\"do\":\"restart\"}\n===\n\"\xff\"",
        b"script line 3: not utf-8",
    ),
    (
        b"===\n{\"do\":\"go\",\"tab\":1,\"url\":\"https://a.test\",\"head\":[[\" \",\"\"]]}",
        b"script line 2: bad header",
    ),
    (
        b"{\"do\":\"tock\"}\n===\n{\"do\":\"disk\"}",
        b"script line 1: unknown action",
    ),
    (
        b"{\"do\":\"restart\"}\n===\n{\"do\":\"restart\"}\n=== ",
        b"script line 4: not json",
    ),
];

fn is_answer(alloc: Global, text: &[u8], want: &[u8]) -> Result<bool, Fail> {
    Ok(answer_of(alloc, text)?.as_bytes() == want)
}

#[test]
fn inputs_of_two_scripts(rt: HostRuntime) -> Result<(), Fail> {
    let alloc = rt.alloc();
    for (place, (text, want)) in INPUTS.iter().enumerate() {
        assert!(rt; is_answer(alloc, text, want)?, "input {place}");
    }
    Ok(())
}

fn has_fault(alloc: Global, bytes: Vec<u8>, why: ScriptFault) -> bool {
    read_two(alloc, bytes).err() == Some(why)
}

// The length of the whole comes before the want of a divider.
#[test]
fn limit_of_two_scripts(rt: HostRuntime) -> Result<(), Fail> {
    let alloc = rt.alloc();
    let blanks = vec![in alloc; b' '; 16_777_217]?;
    assert!(rt; has_fault(alloc, blanks, ScriptFault::TooLong));
    Ok(())
}

// A divider and a line behind it of so many bytes.
fn divided(alloc: Global, length: usize) -> Result<Vec<u8>, Fail> {
    let mut bytes = Vec::from_slice(alloc, b"===\n")?;
    bytes.extend_from_slice(&vec![in alloc; b'x'; length]?)?;
    Ok(bytes)
}

#[test]
fn long_line_of_a_second_script(rt: HostRuntime) -> Result<(), Fail> {
    let alloc = rt.alloc();
    let bytes = divided(alloc, 1_048_577)?;
    assert!(rt; has_fault(alloc, bytes, ScriptFault::LineTooLong(2)));
    Ok(())
}

// Whether a read that fails is a fault.
fn fault_is_told(alloc: Global) -> Result<bool, Fail> {
    let fails = Vec::from_slice(alloc, &[2])?;
    let mut source = MemSource::new(Vec::from_slice(alloc, b"===")?, fails);
    Ok(Script::read_two(alloc, &mut source).err() == Some(ScriptFault::ReadFault))
}

#[test]
fn source_of_two_scripts_fails(rt: HostRuntime) -> Result<(), Fail> {
    assert!(rt; fault_is_told(rt.alloc())?);
    Ok(())
}
