//! Requests and scripts over the cookies of all sites.
ghost use Rattle.std.specs.Prelude.{◌≤◌};
ghost use Rattle.agent_base.specs.Seconds.{last_moment};

use agent_base::{MemSource, Seconds};
use origin_site::{Address, Site};
use reply_lines::ReplyBody;
use script_actions::HeadField;
use std::alloc::Global;
use std::test::Fail;
use storage_key::Context;
use suffix_list::SuffixList;
use web_cookies::{CookieUse, Cookies, LineInput};

fn list_of(alloc: Global) -> Result<SuffixList, Fail> {
    list_with(alloc, "test")
}

fn list_with(alloc: Global, text: &str) -> Result<SuffixList, Fail> {
    let bytes = Vec::from_slice(alloc, text.as_bytes())?;
    let mut source = MemSource::new(bytes, Vec::new(alloc));
    Ok(SuffixList::read(alloc, &mut source)?)
}

// What a line is run with at this second.
fn input_at(alloc: Global, list: &SuffixList, now: u64) -> LineInput<'_>
    requires { now ≤ last_moment }
{
    LineInput {
        alloc,
        list,
        clock: Seconds::new(now),
    }
}

// Who uses cookies: an address, the top-level site, and of what kind the use is.
type Who = (&'static str, &'static str, Kind);

#[derive(Clone, Copy, PartialEq, Eq)]
enum Kind {
    FirstParty,
    FirstPartyScript,
    ThirdParty,
    Granted,
}

const A: Who = ("https://www.a.test/", "https://a.test", Kind::FirstParty);

const A_HTTP: Who = ("http://a.test/", "http://a.test", Kind::FirstParty);

const A_SCRIPT: Who = ("https://a.test/", "https://a.test", Kind::FirstPartyScript);

const B: Who = ("https://b.test/", "https://b.test", Kind::FirstParty);

const W: Who = ("https://w.test/", "https://w.test", Kind::FirstParty);

const W_IN_A: Who = ("https://w.test/", "https://a.test", Kind::ThirdParty);

const W_IN_B: Who = ("https://w.test/", "https://b.test", Kind::ThirdParty);

const W_GRANTED_IN_A: Who = ("https://w.test/", "https://a.test", Kind::Granted);

// A response with these texts, which stand between bars, in fields of this name.
fn head_of(alloc: Global, name: &str, texts: &str) -> Result<Vec<HeadField>, Fail> {
    let mut head = Vec::new(alloc);
    for text in texts.split('|') {
        head.push(HeadField {
            name: String::from_str(alloc, name)?,
            value: String::from_str(alloc, text)?,
        })?;
    }
    Ok(head)
}

// What is answered to a request with these texts, or to a script that sets one or reads.
fn answer(
    input: &LineInput<'_>,
    cookies: &mut Cookies,
    who: Who,
    name: &str,
    texts: &str,
) -> Result<ReplyBody, Fail> {
    let (address, site, kind) = who;
    let script = kind == Kind::FirstPartyScript;
    let first = script || kind == Kind::FirstParty;
    let url = Address::read(input.alloc, address)?;
    let top = Site::read(input.alloc, site)?;
    let how = CookieUse {
        url: &url,
        top: &top,
        context: Context { first, bit: !first },
        same_site: first,
        top_load: false,
        safe: true,
        script,
        granted: kind == Kind::Granted,
    };
    if !script {
        let head = head_of(input.alloc, name, texts)?;
        let prepared = cookies.prepare(input, &how, &head)?;
        return Ok(cookies.perform(prepared));
    }
    if texts.is_empty() {
        Ok(cookies.read(input, &how)?)
    } else {
        let prepared = cookies.prepare_set(input, &how, texts)?;
        Ok(cookies.perform(prepared))
    }
}

// Whether this goes out or is read, and these words answer.
fn is_answer(body: &ReplyBody, want: &str, words: &[&'static str]) -> bool {
    match body {
        ReplyBody::Load { cookie, set } => {
            cookie.as_deref().unwrap_or("") == want && set.as_slice() == words
        }
        ReplyBody::Cookie { cookie } => cookie.as_str() == want,
        ReplyBody::SetOne { set } => words.first() == Some(set),
        _ => false,
    }
}

// The steps of one run: who, the name of the field, the texts, what goes out, and the words.
type Step = (
    Who,
    &'static str,
    &'static str,
    &'static str,
    &'static [&'static str],
);

const STEPS: &[Step] = &[
    (A, "Set-Cookie", "s=1; Domain=a.test", "", &["added"]),
    (
        A_HTTP,
        "set-COOKIE",
        "t=1; HttpOnly|=|u=1; Secure",
        "s=1",
        &["added", "empty", "not-secure-url"],
    ),
    (A_SCRIPT, "", "", "s=1", &[]),
    (A_SCRIPT, "", "t=2", "", &["overwrites-http-only"]),
    (A_SCRIPT, "", "s=2; Domain=a.test", "", &["replaced"]),
    (A_HTTP, "Cookie", "t=3", "s=2; t=1", &[]),
    (B, "Cookie", "s=3", "", &[]),
    (
        W_IN_A,
        "Set-Cookie",
        "p=1; Secure; SameSite=None; Partitioned|q=1; Secure; SameSite=None",
        "",
        &["added", "third-party"],
    ),
    (
        W_IN_B,
        "Set-Cookie",
        "p=2; Secure; SameSite=None; Partitioned",
        "",
        &["added"],
    ),
    (W, "Set-Cookie", "p=3", "", &["added"]),
    (W_IN_A, "Cookie", "", "p=1", &[]),
    (W_IN_B, "Cookie", "", "p=2", &[]),
    (
        W,
        "Set-Cookie",
        "p=3; Max-Age=0|p=4|p=5",
        "p=3",
        &["removed", "added", "replaced"],
    ),
    (
        W,
        "Set-Cookie",
        "g=1; Secure; SameSite=None",
        "p=5",
        &["added"],
    ),
    (
        W_GRANTED_IN_A,
        "Set-Cookie",
        "h=1; Secure; SameSite=None|i=1; Secure",
        "g=1; p=1",
        &["added", "same-site"],
    ),
    (W_IN_A, "Cookie", "", "p=1", &[]),
    (A, "Cookie", "", "s=2", &[]),
    (W, "Cookie", "", "p=5; g=1; h=1", &[]),
];

// Whether one step answers as it has to at that moment.
fn is_answered(input: &LineInput<'_>, cookies: &mut Cookies, step: Step) -> Result<bool, Fail> {
    let (who, name, texts, want, words) = step;
    let body = answer(input, cookies, who, name, texts)?;
    Ok(is_answer(&body, want, words))
}

#[test]
fn sites_and_partitions_stand_apart(rt: HostRuntime) -> Result<(), Fail> {
    let alloc = rt.alloc();
    let list = list_of(alloc)?;
    let mut cookies = Cookies::new(alloc);
    for (place, step) in STEPS.iter().enumerate() {
        let answered = is_answered(&input_at(alloc, &list, 7), &mut cookies, *step)?;
        assert!(rt; answered, "step {place}");
    }
    Ok(())
}

const C: Who = (
    "https://www.c.co.test/",
    "https://c.co.test",
    Kind::FirstParty,
);

const W_IN_C: Who = ("https://w.test/", "https://c.co.test", Kind::ThirdParty);

// Cookies of two domains, and one of w.test in the pages of one of them.
const STORED: &[Step] = &[
    (
        A,
        "Set-Cookie",
        "s=1; Domain=a.test|t=1",
        "",
        &["added", "added"],
    ),
    (C, "Set-Cookie", "s=2; Domain=c.co.test", "", &["added"]),
    (
        W_IN_C,
        "Set-Cookie",
        "p=1; Secure; SameSite=None; Partitioned",
        "",
        &["added"],
    ),
];

// The list that the cookies are stored and sent under.
const OWN_LIST: &str = "co.test\ntest";

// A list, whether a cell goes under it, and what goes out to the readers afterwards. A domain that
// has become a suffix keeps its cell, unless one of its cookies is of another domain there.
const LISTS: &[(&str, bool, &[&str])] = &[
    (OWN_LIST, false, &["s=1; t=1", "s=2", "p=1"]),
    (
        "co.test\na.test\nc.co.test\nw.test",
        true,
        &["", "s=2", "p=1"],
    ),
    ("test", true, &["", "", ""]),
    (OWN_LIST, false, &["", "", ""]),
];

const READERS: &[Who] = &[A, C, W_IN_C];

// Whether these go out to the readers in turn.
fn are_sent(
    input: &LineInput<'_>,
    cookies: &mut Cookies,
    wanted: &[&'static str],
) -> Result<bool, Fail> {
    let mut done = true;
    for (who, want) in READERS.iter().zip(wanted) {
        let step = (*who, "Cookie", "", *want, NO_WORDS);
        done = done && is_answered(input, cookies, step)?;
    }
    Ok(done)
}

#[test]
fn cells_under_another_list_go(rt: HostRuntime) -> Result<(), Fail> {
    let alloc = rt.alloc();
    let list = list_with(alloc, OWN_LIST)?;
    let mut cookies = Cookies::new(alloc);
    for step in STORED {
        assert!(rt; is_answered(&input_at(alloc, &list, 7), &mut cookies, *step)?);
    }
    for (text, went, wanted) in LISTS {
        let other = list_with(alloc, text)?;
        assert!(rt; cookies.migrate(&other) == *went, "under {text}");
        assert!(rt;
            are_sent(&input_at(alloc, &list, 7), &mut cookies, wanted)?,
            "after {text}"
        );
    }
    Ok(())
}

// Sets so many cookies of one path in one second, each with a number of its own.
fn fill(input: &LineInput<'_>, cookies: &mut Cookies, count: u32) -> Result<(), Fail> {
    for number in 0..count {
        let text = format!(in input.alloc; "n{number}=1; Path=/y")?;
        let _ = answer(input, cookies, A, "Set-Cookie", text.as_str())?;
    }
    Ok(())
}

const AT_X: Who = ("https://www.a.test/x", "https://a.test", Kind::FirstParty);

const SCRIPT_AT_X: Who = (
    "https://www.a.test/x",
    "https://a.test",
    Kind::FirstPartyScript,
);

const NO_WORDS: &[&str] = &[];

// The first cookie of a cell, and one behind its last.
const FIRST: Step = (A, "Set-Cookie", "k=1; Path=/x", "", &["added"]);

const LAST: Step = (A, "Set-Cookie", "l=1; Path=/z", "", &["added"]);

// Whether a cell is full, with a first cookie that this one used.
fn is_filled(
    alloc: Global,
    cookies: &mut Cookies,
    list: &SuffixList,
    user: Who,
) -> Result<bool, Fail> {
    let first = input_at(alloc, list, 1);
    let added = is_answered(&first, cookies, FIRST)?;
    fill(&first, cookies, 179)?;
    let step = (user, "Cookie", "", "k=1", NO_WORDS);
    let used = is_answered(&input_at(alloc, list, 2), cookies, step)?;
    Ok(added && used)
}

// Whether this goes out to `/x`, where a full cell had its first cookie used by this one before
// one more.
fn is_left_by(alloc: Global, user: Who, want: &'static str) -> Result<bool, Fail> {
    let list = list_of(alloc)?;
    let mut cookies = Cookies::new(alloc);
    let filled = is_filled(alloc, &mut cookies, &list, user)?;
    let added = is_answered(&input_at(alloc, &list, 3), &mut cookies, LAST)?;
    let step = (AT_X, "Cookie", "", want, NO_WORDS);
    let sent = is_answered(&input_at(alloc, &list, 4), &mut cookies, step)?;
    Ok(filled && added && sent)
}

#[test]
fn a_sending_marks_and_a_script_does_not(rt: HostRuntime) -> Result<(), Fail> {
    let alloc = rt.alloc();
    assert!(rt; is_left_by(alloc, AT_X, "k=1")?);
    assert!(rt; is_left_by(alloc, SCRIPT_AT_X, "")?);
    Ok(())
}
