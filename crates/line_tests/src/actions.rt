//! Lines of each action, with good and bad fields.
use crate::scripts::{lines_text, message_of, script_of};
use std::alloc::Global;
use std::test::Fail;

// A line, and what it asks for behind its number or the message of its fault.
const ACTIONS: &[(&str, &str)] = &[
    (
        "{\"do\":\"tick\",\"s\":1000000000}",
        "1 Tick { s: 1000000000 }\n",
    ),
    ("{\"do\":\"restart\"}", "1 Restart\n"),
    ("{\"do\":\"restart\",\"s\":1}", "script line 1: bad field s"),
    (
        "{\"do\":\"open\",\"tab\":2,\"url\":\"https://a.test/\",\"opener\":1,\
            \"noopener\":true,\"method\":\"POST\"}",
        "1 Open { tab: 2, url: Address { text: \"https://a.test/\", https: true, ip: false, \
            host: \"a.test\", port: 443, path: \"/\" }, opener: Some(1), noopener: true, \
            method: Post, head: [] }\n",
    ),
    (
        "{\"do\":\"open\",\"tab\":2,\"url\":\"https://a.test/\",\"opener\":0}",
        "script line 1: bad field opener",
    ),
    (
        "{\"do\":\"open\",\"tab\":2,\"url\":\"https://a.test/\",\"noopener\":1}",
        "script line 1: bad field noopener",
    ),
    ("{\"do\":\"close\",\"tab\":1}", "1 Close { tab: 1 }\n"),
    (
        "{\"do\":\"go\",\"tab\":1,\"url\":\"https://a.test/\",\"by\":\"page\"}",
        "1 Go { tab: 1, url: Address { text: \"https://a.test/\", https: true, ip: false, \
            host: \"a.test\", port: 443, path: \"/\" }, by_page: true, method: Get, \
            head: [] }\n",
    ),
    (
        "{\"do\":\"go\",\"tab\":1,\"url\":\"https://a.test/\",\"by\":\"self\"}",
        "script line 1: bad field by",
    ),
    (
        "{\"do\":\"frame\",\"tab\":1,\"frame\":2,\"url\":\"https://a.test/\",\
            \"sandbox\":\"x\",\"deny\":true}",
        "1 Frame { at: Label { tab: 1, frame: 2 }, parent: 0, deny: true, url: Address { text: \
            \"https://a.test/\", https: true, ip: false, host: \"a.test\", port: 443, path: \
            \"/\" }, sandbox: Some(\"x\"), head: [] }\n",
    ),
    (
        "{\"do\":\"frame\",\"tab\":1,\"frame\":0}",
        "script line 1: bad field frame",
    ),
    (
        "{\"do\":\"nav\",\"tab\":1,\"frame\":2,\"url\":\"https://a.test/\",\"by\":\"self\"}",
        "1 Nav { at: Label { tab: 1, frame: 2 }, url: Address { text: \"https://a.test/\", \
            https: true, ip: false, host: \"a.test\", port: 443, path: \"/\" }, by_self: true, \
            method: Get, head: [] }\n",
    ),
    (
        "{\"do\":\"nav\",\"tab\":1,\"frame\":2,\"url\":\"https://a.test/\",\"by\":\"user\"}",
        "script line 1: bad field by",
    ),
    (
        "{\"do\":\"drop\",\"tab\":1,\"frame\":255}",
        "1 Drop { at: Label { tab: 1, frame: 255 } }\n",
    ),
    (
        "{\"do\":\"drop\",\"tab\":1,\"frame\":256}",
        "script line 1: bad field frame",
    ),
    (
        "{\"do\":\"click\",\"tab\":1}",
        "1 Click { at: Label { tab: 1, frame: 0 } }\n",
    ),
    (
        "{\"do\":\"fetch\",\"tab\":1,\"frame\":2,\"url\":\"https://a.test/\",\
            \"method\":\"PUT\"}",
        "1 Fetch { at: Label { tab: 1, frame: 2 }, url: Address { text: \"https://a.test/\", \
            https: true, ip: false, host: \"a.test\", port: 443, path: \"/\" }, method: Put, \
            head: [] }\n",
    ),
    (
        "{\"do\":\"fetch\",\"tab\":1,\"method\":\"put\"}",
        "script line 1: bad field url",
    ),
    (
        "{\"do\":\"set\",\"tab\":1,\"area\":\"session\",\"key\":\"k\",\"value\":\"\"}",
        "1 Set { at: Label { tab: 1, frame: 0 }, area: Session, key: \"k\", value: \"\" }\n",
    ),
    (
        "{\"do\":\"set\",\"tab\":1,\"area\":\"shared\",\"value\":1}",
        "script line 1: bad field area",
    ),
    (
        "{\"do\":\"get\",\"tab\":1,\"frame\":2,\"key\":\"k\"}",
        "1 Get { at: Label { tab: 1, frame: 2 }, area: Local, key: \"k\" }\n",
    ),
    (
        "{\"do\":\"del\",\"tab\":1,\"area\":\"session\",\"key\":\"k\"}",
        "1 Del { at: Label { tab: 1, frame: 0 }, area: Session, key: \"k\" }\n",
    ),
    ("{\"do\":\"del\",\"tab\":1}", "script line 1: bad field key"),
    (
        "{\"do\":\"clear\",\"tab\":1,\"area\":\"session\"}",
        "1 Clear { at: Label { tab: 1, frame: 0 }, area: Session }\n",
    ),
    (
        "{\"do\":\"clear\",\"tab\":1,\"area\":null}",
        "script line 1: bad field area",
    ),
    (
        "{\"do\":\"len\",\"tab\":1,\"frame\":2}",
        "1 Len { at: Label { tab: 1, frame: 2 }, area: Local }\n",
    ),
    (
        "{\"do\":\"len\",\"tab\":1,\"area\":\"Local\"}",
        "script line 1: bad field area",
    ),
    (
        "{\"do\":\"key\",\"tab\":1,\"area\":\"session\",\"n\":4294967295}",
        "1 Key { at: Label { tab: 1, frame: 0 }, area: Session, n: 4294967295 }\n",
    ),
    (
        "{\"do\":\"key\",\"tab\":1,\"n\":4294967296}",
        "script line 1: bad field n",
    ),
    (
        "{\"do\":\"events\",\"tab\":1,\"frame\":2}",
        "1 Events { at: Label { tab: 1, frame: 2 } }\n",
    ),
    (
        "{\"do\":\"cookie\",\"tab\":1,\"frame\":255}",
        "1 Cookie { at: Label { tab: 1, frame: 255 } }\n",
    ),
    (
        "{\"do\":\"cookie\",\"tab\":1,\"text\":\"a=b\",\"head\":[]}",
        "script line 1: bad field head",
    ),
    (
        "{\"do\":\"setcookie\",\"tab\":1,\"text\":\"a=b\\n\"}",
        "1 SetCookie { at: Label { tab: 1, frame: 0 }, text: \"a=b\\n\" }\n",
    ),
    (
        "{\"do\":\"setcookie\",\"tab\":1,\"frame\":2,\"text\":\"\"}",
        "1 SetCookie { at: Label { tab: 1, frame: 2 }, text: \"\" }\n",
    ),
    (
        "{\"do\":\"setcookie\",\"tab\":1,\"value\":\"a=b\"}",
        "script line 1: bad field text",
    ),
    (
        "{\"do\":\"events\",\"tab\":1,\"area\":\"local\"}",
        "script line 1: bad field area",
    ),
    (
        "{\"do\":\"has\",\"tab\":1,\"frame\":2}",
        "1 Has { at: Label { tab: 1, frame: 2 } }\n",
    ),
    (
        "{\"do\":\"has\",\"tab\":1,\"answer\":\"grant\"}",
        "script line 1: bad field answer",
    ),
    (
        "{\"do\":\"request\",\"tab\":1,\"frame\":2,\"answer\":\"grant\"}",
        "1 Request { at: Label { tab: 1, frame: 2 }, answer: Grant }\n",
    ),
    (
        "{\"do\":\"request\",\"tab\":1,\"answer\":\"deny\"}",
        "1 Request { at: Label { tab: 1, frame: 0 }, answer: Deny }\n",
    ),
    (
        "{\"do\":\"request\",\"tab\":1,\"answer\":\"dismiss\"}",
        "1 Request { at: Label { tab: 1, frame: 0 }, answer: Dismiss }\n",
    ),
    (
        "{\"do\":\"request\",\"tab\":1,\"answer\":\"Grant\"}",
        "script line 1: bad field answer",
    ),
    (
        "{\"do\":\"request\",\"tab\":1,\"frame\":2}",
        "script line 1: bad field answer",
    ),
    (
        "{\"do\":\"request\",\"tab\":1,\"answer\":\"grant\",\"url\":\"https://a.test/\"}",
        "script line 1: bad field url",
    ),
    (
        "{\"do\":\"persisted\",\"tab\":1}",
        "1 Persisted { at: Label { tab: 1, frame: 0 } }\n",
    ),
    (
        "{\"do\":\"persisted\",\"tab\":1,\"answer\":\"grant\"}",
        "script line 1: bad field answer",
    ),
    (
        "{\"do\":\"estimate\",\"tab\":1,\"frame\":2}",
        "1 Estimate { at: Label { tab: 1, frame: 2 } }\n",
    ),
    (
        "{\"do\":\"estimate\",\"tab\":1,\"frame\":256}",
        "script line 1: bad field frame",
    ),
    (
        "{\"do\":\"persist\",\"tab\":1,\"answer\":\"grant\"}",
        "1 Persist { at: Label { tab: 1, frame: 0 }, answer: Grant }\n",
    ),
    (
        "{\"do\":\"persist\",\"tab\":1,\"frame\":2,\"answer\":\"deny\"}",
        "1 Persist { at: Label { tab: 1, frame: 2 }, answer: Deny }\n",
    ),
    (
        "{\"do\":\"persist\",\"tab\":1,\"answer\":\"dismiss\"}",
        "script line 1: bad field answer",
    ),
    (
        "{\"do\":\"persist\",\"tab\":1}",
        "script line 1: bad field answer",
    ),
    (
        "{\"do\":\"evict\",\"site\":\"http://[::1]\"}",
        "1 Evict { site: Site { https: false, host: \"[::1]\" } }\n",
    ),
    (
        "{\"do\":\"evict\",\"site\":\"https://a.test/\"}",
        "script line 1: bad field site",
    ),
];

// The lines of a script that a text is, or the message of its first fault.
pub fn answer_of(alloc: Global, text: &str) -> Result<String, Fail> {
    let bytes = Vec::from_slice(alloc, text.as_bytes())?;
    match script_of(alloc, bytes) {
        Ok(script) => lines_text(alloc, &script),
        Err(why) => message_of(alloc, &why),
    }
}

// Whether that is the answer to a text.
pub fn is_answer(alloc: Global, text: &str, want: &str) -> Result<bool, Fail> {
    Ok(answer_of(alloc, text)?.as_str() == want)
}

#[test]
fn actions_of_lines(rt: HostRuntime) -> Result<(), Fail> {
    let alloc = rt.alloc();
    for (text, want) in ACTIONS {
        assert!(rt; is_answer(alloc, text, want)?, "{text}");
    }
    Ok(())
}
