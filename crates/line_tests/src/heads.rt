//! Heads of loads and of requests: good ones, each fault, and which fault is the first.
use crate::actions::{answer_of, is_answer};
use std::alloc::Global;
use std::test::Fail;

// The member `head` of a line, and the head that is read or the message of the fault.
const HEADS: &[(&str, &str)] = &[
    ("[]", "[]"),
    (
        r#"[["Set-Cookie","a=b"]]"#,
        r#"[HeadField { name: "Set-Cookie", value: "a=b" }]"#,
    ),
    (
        r#"[["set-COOKIE",""],["Set-Cookie","a=b"],["X","x"]]"#,
        concat!(
            r#"[HeadField { name: "set-COOKIE", value: "" }, "#,
            r#"HeadField { name: "Set-Cookie", value: "a=b" }, HeadField { name: "X", value: "x" }]"#,
        ),
    ),
    (
        r#"[["!#$%&'*+-.^_`|~09AZaz","a"]]"#,
        r#"[HeadField { name: "!#$%&'*+-.^_`|~09AZaz", value: "a" }]"#,
    ),
    (
        "[[\"a\",\" \\u0009\u{7f}\u{e9};,\\\"\"]]",
        r#"[HeadField { name: "a", value: " \t\u{7f}é;,\"" }]"#,
    ),
    (
        r#"[["\u0053et\u002dCookie","a\u003db\\\""],["X","\ud83d\ude00\u00e9"]]"#,
        r#"[HeadField { name: "Set-Cookie", value: "a=b\\\"" }, HeadField { name: "X", value: "😀é" }]"#,
    ),
    (
        "  [ [ \"a\" , \"b\" ]\t, [\r\"a\",\"c\"]  ] ",
        r#"[HeadField { name: "a", value: "b" }, HeadField { name: "a", value: "c" }]"#,
    ),
    ("[ ]", "[]"),
    ("null", "script line 1: bad field head"),
    ("0", "script line 1: bad field head"),
    ("true", "script line 1: bad field head"),
    (r#""Set-Cookie: a=b""#, "script line 1: bad field head"),
    (r#"{"Set-Cookie":"a=b"}"#, "script line 1: bad field head"),
    ("[null]", "script line 1: bad field head"),
    (r#"["Set-Cookie","a=b"]"#, "script line 1: bad field head"),
    (r#"[{"Set-Cookie":"a=b"}]"#, "script line 1: bad field head"),
    ("[[]]", "script line 1: bad field head"),
    (r#"[["a"]]"#, "script line 1: bad field head"),
    (r#"[["a","b","c"]]"#, "script line 1: bad field head"),
    (r#"[["a",1]]"#, "script line 1: bad field head"),
    (r#"[[1,"b"]]"#, "script line 1: bad field head"),
    (r#"[["a",null]]"#, "script line 1: bad field head"),
    (r#"[["a",["b"]]]"#, "script line 1: bad field head"),
    (r#"[[["a","b"]]]"#, "script line 1: bad field head"),
    (r#"[[["a"],"b"]]"#, "script line 1: bad field head"),
    (r#"[["a","b"],[]]"#, "script line 1: bad field head"),
    (r#"[["a","b"],"c"]"#, "script line 1: bad field head"),
    // What is no JSON is so before any form is looked at.
    (r#"[["a","b"],]"#, "script line 1: not json"),
    (r#"[["a" "b"]]"#, "script line 1: not json"),
    (r#"[["a":"b"]]"#, "script line 1: not json"),
    (r#"[["a","b"]"#, "script line 1: not json"),
    (r#"[["a","\ud800"]]"#, "script line 1: not json"),
    (
        r#"[["a","b"],["a","b"],["a"]]"#,
        "script line 1: bad field head",
    ),
    (r#"[["","b"]]"#, "script line 1: bad header"),
    (r#"[["a b","c"]]"#, "script line 1: bad header"),
    (r#"[["a:","c"]]"#, "script line 1: bad header"),
    (r#"[["é","c"]]"#, "script line 1: bad header"),
    (r#"[["a\u0000","c"]]"#, "script line 1: bad header"),
    (r#"[["a","\u0000"]]"#, "script line 1: bad header"),
    (r#"[["a","b\n"]]"#, "script line 1: bad header"),
    (r#"[["a","\rb"]]"#, "script line 1: bad header"),
    (
        r#"[["a","b"],["a","b"],["a","b\nc"]]"#,
        "script line 1: bad header",
    ),
    // The form of the whole head is looked at before any name.
    (r#"[["a b","c"],["a"]]"#, "script line 1: bad field head"),
];

// A line with this head, whose action is shown before and behind it.
fn answer_to(alloc: Global, head: &str) -> Result<String, Fail> {
    let line = format!(in alloc;
        "{{\"do\":\"fetch\",\"tab\":1,\"url\":\"https://a.test\",\"head\":{head}}}"
    )?;
    answer_of(alloc, line.as_str())
}

// What is shown of a request with this head, where it is not refused.
fn shown(alloc: Global, want: &str) -> Result<String, Fail> {
    if want.starts_with("script") {
        return Ok(String::from_str(alloc, want)?);
    }
    Ok(format!(in alloc;
        "1 Fetch {{ at: Label {{ tab: 1, frame: 0 }}, url: Address {{ text: \
            \"https://a.test/\", https: true, ip: false, host: \"a.test\", port: 443, path: \
            \"/\" }}, method: Get, head: {want} }}\n"
    )?)
}

fn is_head(alloc: Global, head: &str, want: &str) -> Result<bool, Fail> {
    let answer = answer_to(alloc, head)?;
    let want = shown(alloc, want)?;
    Ok(answer.as_str() == want.as_str())
}

#[test]
fn heads_of_requests(rt: HostRuntime) -> Result<(), Fail> {
    let alloc = rt.alloc();
    for (head, want) in HEADS {
        assert!(rt; is_head(alloc, head, want)?, "{head}");
    }
    Ok(())
}

// A line, and its action behind its number or the message of its fault.
const LINES: &[(&str, &str)] = &[
    (
        r#"{"do":"open","tab":1,"url":"https://a.test","head":[["a","b"]]}"#,
        "1 Open { tab: 1, url: Address { text: \"https://a.test/\", https: true, ip: false, \
            host: \"a.test\", port: 443, path: \"/\" }, opener: None, noopener: false, \
            method: Get, head: [HeadField { name: \"a\", value: \"b\" }] }\n",
    ),
    (
        r#"{"do":"go","head":[["a","b"]],"tab":1,"url":"https://a.test"}"#,
        "1 Go { tab: 1, url: Address { text: \"https://a.test/\", https: true, ip: false, \
            host: \"a.test\", port: 443, path: \"/\" }, by_page: false, method: Get, \
            head: [HeadField { name: \"a\", value: \"b\" }] }\n",
    ),
    (
        r#"{"do":"frame","tab":1,"frame":1,"url":"https://a.test","head":[["a","b"]]}"#,
        "1 Frame { at: Label { tab: 1, frame: 1 }, parent: 0, deny: false, url: Address { text: \
            \"https://a.test/\", https: true, ip: false, host: \"a.test\", port: 443, path: \
            \"/\" }, sandbox: None, head: [HeadField { name: \"a\", value: \"b\" }] }\n",
    ),
    (
        r#"{"do":"nav","tab":1,"frame":1,"url":"https://a.test","head":[["a","b"]]}"#,
        "1 Nav { at: Label { tab: 1, frame: 1 }, url: Address { text: \"https://a.test/\", \
            https: true, ip: false, host: \"a.test\", port: 443, path: \"/\" }, by_self: false, \
            method: Get, head: [HeadField { name: \"a\", value: \"b\" }] }\n",
    ),
    // A head is the last field of its row, and comes before a member that no field has.
    (
        r#"{"do":"open","tab":1,"url":"https://a.test","method":"get","head":[["",""]]}"#,
        "script line 1: bad field method",
    ),
    (
        r#"{"do":"frame","tab":1,"frame":1,"url":"https://a.test","deny":0,"head":0}"#,
        "script line 1: bad field deny",
    ),
    (
        r#"{"do":"nav","tab":1,"frame":1,"url":"https://a.test","head":[["",""]],"a":0}"#,
        "script line 1: bad header",
    ),
    (
        r#"{"do":"go","tab":1,"url":"https://a.test","head":{},"a":0}"#,
        "script line 1: bad field head",
    ),
    (
        r#"{"do":"go","tab":1,"url":"https://a.test","head":[["a","b"]],"a":0}"#,
        "script line 1: bad field a",
    ),
    // Of two members of one name the later counts.
    (
        r#"{"do":"go","tab":1,"url":"https://a.test","head":0,"head":[["",""]]}"#,
        "script line 1: bad header",
    ),
    (
        r#"{"do":"set","tab":1,"key":"k","value":"v","head":[["",""]]}"#,
        "script line 1: bad field head",
    ),
    (
        r#"{"do":"setcookie","tab":1,"text":["a=b"]}"#,
        "script line 1: bad field text",
    ),
    (
        r#"{"do":"go","tab":1,"url":"https://a.test","head":[["a","b"]],"head":[["c","d"]]}"#,
        "1 Go { tab: 1, url: Address { text: \"https://a.test/\", https: true, ip: false, \
            host: \"a.test\", port: 443, path: \"/\" }, by_page: false, method: Get, \
            head: [HeadField { name: \"c\", value: \"d\" }] }\n",
    ),
    (
        r#"{"do":"go","tab":1,"url":"https://a.test","head":[["",""]],"head":[]}"#,
        "1 Go { tab: 1, url: Address { text: \"https://a.test/\", https: true, ip: false, \
            host: \"a.test\", port: 443, path: \"/\" }, by_page: false, method: Get, \
            head: [] }\n",
    ),
    (
        r#"{"do":"go","tab":1,"url":"https://a.test","head":[["a","b"]],"head":1}"#,
        "script line 1: bad field head",
    ),
    // A list is of no other form than that of a head.
    (r#"{"do":[],"tab":1}"#, "script line 1: bad field do"),
    (
        r#"{"do":"close","tab":[["a","b"]]}"#,
        "script line 1: bad field tab",
    ),
    (
        r#"{"do":"set","tab":1,"area":[],"key":"k","value":"v"}"#,
        "script line 1: bad field area",
    ),
    (
        r#"{"do":"set","tab":1,"key":"k","value":[["a","b"]]}"#,
        "script line 1: bad field value",
    ),
    (
        r#"{"do":"open","tab":1,"url":"https://a.test","noopener":[]}"#,
        "script line 1: bad field noopener",
    ),
    // Members that no field has, in byte order, beside lists.
    (
        r#"{"do":"click","z":[["a","b"],["c","d"]],"tab":1,"b":[]}"#,
        "script line 1: bad field b",
    ),
    (
        r#"{"do":"fetch","z":0,"tab":1,"url":"https://a.test","head":[["a","b"]],"y":true}"#,
        "script line 1: bad field y",
    ),
    (
        r#"{"do":"fetch","tab":1,"url":"https://a.test","head":[["a","b"]],"n":1e400}"#,
        "script line 1: not json",
    ),
    (
        r#"{"do":"fetch","tab":1,"url":"https://a.test","head":[["a","b"]]}}"#,
        "script line 1: not json",
    ),
];

#[test]
fn heads_of_lines(rt: HostRuntime) -> Result<(), Fail> {
    let alloc = rt.alloc();
    for (line, want) in LINES {
        assert!(rt; is_answer(alloc, line, want)?, "{line}");
    }
    Ok(())
}

// A list of this text, so many times.
fn list_of(alloc: Global, item: &str, count: usize) -> Result<String, Fail> {
    let mut list = String::from_str(alloc, "[")?;
    for place in 0..count {
        if place > 0 {
            list.push(',')?;
        }
        list.push_str(item)?;
    }
    list.push(']')?;
    Ok(list)
}

// A field so many times, and the fault.
const LONG: &[(&str, usize, &str)] = &[
    (r#"["a","b"]"#, 65, "script line 1: bad field head"),
    (r#"["a b","c"]"#, 65, "script line 1: bad field head"),
    (r#"["a b","c"]"#, 64, "script line 1: bad header"),
];

// The answer to a head of this field, so many times.
fn answer_to_many(alloc: Global, item: &str, count: usize) -> Result<String, Fail> {
    let head = list_of(alloc, item, count)?;
    answer_to(alloc, head.as_str())
}

fn is_fault_of_many(alloc: Global, item: &str, count: usize, want: &str) -> Result<bool, Fail> {
    Ok(answer_to_many(alloc, item, count)?.as_str() == want)
}

// How many fields of a longest head are read.
fn fields_of_the_longest(alloc: Global) -> Result<usize, Fail> {
    let answer = answer_to_many(alloc, r#"["a","b"]"#, 64)?;
    Ok(
        answer
            .matches(r#"HeadField { name: "a", value: "b" }"#)
            .count(),
    )
}

#[test]
fn a_head_of_the_limit(rt: HostRuntime) -> Result<(), Fail> {
    let alloc = rt.alloc();
    for (item, count, want) in LONG {
        let found = is_fault_of_many(alloc, item, *count, want)?;
        assert!(rt; found, "{count} times {item}");
    }
    assert!(rt; fields_of_the_longest(alloc)? == 64);
    Ok(())
}

// A head of one field, whose name has so many letters.
fn named_by(alloc: Global, count: usize) -> Result<String, Fail> {
    let mut head = String::from_str(alloc, "[[\"")?;
    for _ in 0..count {
        head.push('a')?;
    }
    head.push_str("\",\"b\"]]")?;
    Ok(head)
}

// The answer to a name of so many letters.
fn answer_to_name(alloc: Global, count: usize) -> Result<String, Fail> {
    let head = named_by(alloc, count)?;
    answer_to(alloc, head.as_str())
}

fn name_is_taken(alloc: Global, count: usize) -> Result<bool, Fail> {
    Ok(answer_to_name(alloc, count)?.starts_with("1 Fetch"))
}

fn name_is_refused(alloc: Global, count: usize) -> Result<bool, Fail> {
    Ok(answer_to_name(alloc, count)?.as_str() == "script line 1: bad header")
}

#[test]
fn a_name_of_the_limit(rt: HostRuntime) -> Result<(), Fail> {
    let alloc = rt.alloc();
    assert!(rt; name_is_taken(alloc, 65_535)?);
    assert!(rt; name_is_refused(alloc, 65_536)?);
    Ok(())
}
