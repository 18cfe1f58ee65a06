//! Scripts with cuts of the power: good ones, each fault, and where a line of cuts may stand.
use crate::scripts::{lines_text, message_of, read_script};
use disk_model::Cut;
use script_lines::Script;
use std::alloc::Global;
use std::test::Fail;

// The member `cuts` of a first line `disk`, and the cuts that are read or the message of the fault.
const CUTS: &[(&str, &str)] = &[
    ("[]", ""),
    ("[[1,0]]", "1 0, "),
    ("[[1,0],[2,1],[4,2],[5,3]]", "1 0, 2 1, 4 2, 5 3, "),
    (
        "[[18446744073709551614,3],[18446744073709551615,0]]",
        "18446744073709551614 3, 18446744073709551615 0, ",
    ),
    (" [\t[ 7 , 2 ]\r, [8,2] ]", "7 2, 8 2, "),
    ("[[0,0]]", "script line 1: bad field cuts"),
    ("[[1,4]]", "script line 1: bad field cuts"),
    ("[[1,256]]", "script line 1: bad field cuts"),
    ("[[1,0],[1,0]]", "script line 1: bad field cuts"),
    ("[[2,0],[1,0]]", "script line 1: bad field cuts"),
    ("[[1,0],[3,0],[2,0]]", "script line 1: bad field cuts"),
    (
        "[[18446744073709551616,0]]",
        "script line 1: bad field cuts",
    ),
    ("[[1.0,0]]", "script line 1: bad field cuts"),
    ("[[1,0.0]]", "script line 1: bad field cuts"),
    ("[[1e0,0]]", "script line 1: bad field cuts"),
    ("[[1,-0]]", "script line 1: bad field cuts"),
    ("[[-1,0]]", "script line 1: bad field cuts"),
    ("[[1]]", "script line 1: bad field cuts"),
    ("[[]]", "script line 1: bad field cuts"),
    ("[[1,0,0]]", "script line 1: bad field cuts"),
    ("[[1,0],[2]]", "script line 1: bad field cuts"),
    ("[1,0]", "script line 1: bad field cuts"),
    ("[[1,0],2]", "script line 1: bad field cuts"),
    ("[[\"1\",\"0\"]]", "script line 1: bad field cuts"),
    ("[[\"1\",0]]", "script line 1: bad field cuts"),
    ("[[1,null]]", "script line 1: bad field cuts"),
    ("[[1,true]]", "script line 1: bad field cuts"),
    ("[[[1],0]]", "script line 1: bad field cuts"),
    ("[{\"call\":1}]", "script line 1: bad field cuts"),
    ("{\"1\":0}", "script line 1: bad field cuts"),
    ("null", "script line 1: bad field cuts"),
    ("1", "script line 1: bad field cuts"),
    ("true", "script line 1: bad field cuts"),
    ("\"[[1,0]]\"", "script line 1: bad field cuts"),
    // A field comes before members that no field has, and those in byte order.
    ("[[0,0]],\"a\":0", "script line 1: bad field cuts"),
    ("[[1,0]],\"z\":0,\"a\":0", "script line 1: bad field a"),
    // Of two members of one name the later counts.
    ("[[0,0]],\"cuts\":[[3,1]]", "3 1, "),
    ("[[1,0]", "script line 1: not json"),
];

// The cuts of a script, each as its call and its pick, and then the lines.
fn shown(alloc: Global, script: &Script) -> Result<String, Fail> {
    let mut shown = String::new(alloc);
    for cut in &script.cuts {
        let Cut { call, pick } = *cut;
        shown.push_str(format!(in alloc; "{call} {pick}, ")?.as_str())?;
    }
    shown.push_str(lines_text(alloc, script)?.as_str())?;
    Ok(shown)
}

// The cuts and lines of a script that a text is, through a copy of it, or its fault.
fn answer_of(alloc: Global, text: &str, cuts_allowed: bool) -> Result<String, Fail> {
    let bytes = Vec::from_slice(alloc, text.as_bytes())?;
    match read_script(alloc, bytes, cuts_allowed) {
        Ok(script) => shown(alloc, &script.copy(alloc)?),
        Err(why) => message_of(alloc, &why),
    }
}

// Whether that is the answer to a text.
fn is_answer(alloc: Global, text: &str, cuts_allowed: bool, want: &str) -> Result<bool, Fail> {
    Ok(answer_of(alloc, text, cuts_allowed)?.as_str() == want)
}

fn are_cuts(alloc: Global, cuts: &str, want: &str) -> Result<bool, Fail> {
    let line = format!(in alloc; "{{\"do\":\"disk\",\"cuts\":{cuts}}}")?;
    is_answer(alloc, line.as_str(), true, want)
}

#[test]
fn cuts_of_a_disk(rt: HostRuntime) -> Result<(), Fail> {
    let alloc = rt.alloc();
    for (cuts, want) in CUTS {
        assert!(rt; are_cuts(alloc, cuts, want)?, "{cuts}");
    }
    Ok(())
}

// A script, and what it is where cuts are allowed and where they are not.
const SCRIPTS: &[(&str, &str, &str)] = &[
    ("", "", ""),
    (" \n\t\r\n", "", ""),
    ("{\"do\":\"restart\"}", "1 Restart\n", "1 Restart\n"),
    (
        "\n{\"do\":\"tick\",\"s\":1}\n \n{\"do\":\"restart\"}\n",
        "2 Tick { s: 1 }\n4 Restart\n",
        "2 Tick { s: 1 }\n4 Restart\n",
    ),
    (
        "{\"do\":\"disk\",\"cuts\":[]}",
        "",
        "script line 1: bad field cuts",
    ),
    (
        "{\"cuts\":[[2,1]],\"do\":\"disk\"}\n{\"do\":\"restart\"}",
        "2 1, 2 Restart\n",
        "script line 1: bad field cuts",
    ),
    // Blank lines before it are counted.
    (
        "\n \t\r\n{\"do\":\"disk\",\"cuts\":[[1,3]]}\n\n{\"do\":\"tick\",\"s\":0}",
        "1 3, 5 Tick { s: 0 }\n",
        "script line 3: bad field cuts",
    ),
    // The member is absent, or stands beside others.
    (
        "\n{\"do\":\"disk\"}",
        "script line 2: bad field cuts",
        "script line 2: bad field cuts",
    ),
    (
        "{\"do\":\"disk\",\"tab\":1}",
        "script line 1: bad field cuts",
        "script line 1: bad field cuts",
    ),
    (
        "{\"do\":\"disk\",\"cuts\":[],\"tab\":1}",
        "script line 1: bad field tab",
        "script line 1: bad field cuts",
    ),
    // A line `disk` that is not the first asks for nothing that is known.
    (
        "{\"do\":\"disk\",\"cuts\":[]}\n{\"do\":\"disk\",\"cuts\":[]}",
        "script line 2: unknown action",
        "script line 1: bad field cuts",
    ),
    (
        "{\"do\":\"restart\"}\n{\"do\":\"disk\",\"cuts\":[]}",
        "script line 2: unknown action",
        "script line 2: unknown action",
    ),
    (
        "{\"do\":\"tick\",\"s\":1}\n{\"do\":\"disk\",\"cuts\":0}\nx",
        "script line 2: unknown action",
        "script line 2: unknown action",
    ),
    // The faults of the first line are those of every line.
    (
        "{\"do\":\"disk\",\"cuts\":[]",
        "script line 1: not json",
        "script line 1: not json",
    ),
    (
        "{\"do\":\"Disk\",\"cuts\":[]}",
        "script line 1: unknown action",
        "script line 1: unknown action",
    ),
    (
        "{\"do\":[\"disk\"],\"cuts\":[]}",
        "script line 1: bad field do",
        "script line 1: bad field do",
    ),
    (
        "{\"do\":\"tick\",\"do\":\"disk\",\"cuts\":[[9,0]]}",
        "9 0, ",
        "script line 1: bad field cuts",
    ),
    (
        "{\"do\":\"disk\",\"cuts\":[[9,0]],\"do\":\"restart\"}",
        "script line 1: bad field cuts",
        "script line 1: bad field cuts",
    ),
];

#[test]
fn scripts_with_cuts_or_without(rt: HostRuntime) -> Result<(), Fail> {
    let alloc = rt.alloc();
    for (text, with_cuts, without) in SCRIPTS {
        assert!(rt; is_answer(alloc, text, true, with_cuts)?, "{text}");
        assert!(rt; is_answer(alloc, text, false, without)?, "{text}");
    }
    Ok(())
}

// A line of cuts in each call from the first on, up to the one before `end`.
fn line_of(alloc: Global, end: u64) -> Result<String, Fail> {
    let mut line = String::from_str(alloc, "{\"do\":\"disk\",\"cuts\":[[1,0]")?;
    for call in 2..end {
        line.push_str(format!(in alloc; ",[{call},3]")?.as_str())?;
    }
    line.push_str("]}")?;
    Ok(line)
}

// The answer to a line of cuts before `end`.
fn answer_to_cuts(alloc: Global, end: u64) -> Result<String, Fail> {
    let line = line_of(alloc, end)?;
    answer_of(alloc, line.as_str(), true)
}

#[test]
fn cuts_of_the_limit(rt: HostRuntime) -> Result<(), Fail> {
    let alloc = rt.alloc();
    let good = answer_to_cuts(alloc, 65)?;
    assert!(rt; good.ends_with("63 3, 64 3, "));
    let bad = answer_to_cuts(alloc, 66)?;
    assert!(rt; bad.as_str() == "script line 1: bad field cuts");
    Ok(())
}
