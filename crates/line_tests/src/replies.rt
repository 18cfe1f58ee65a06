//! Lines of replies.
use origin_site::Site;
use reply_lines::{Reply, ReplyBody, print, print_into};
use std::alloc::Global;
use std::test::Fail;
use storage_events::{AreaKind, Event};

// What a reply answers, in texts of the program.
#[derive(Clone, Copy)]
enum Answer {
    Plain(&'static str),
    Now(i64),
    Kept(u64),
    Load(Option<&'static str>, &'static [&'static str]),
    Text(Option<&'static str>),
    Number(u64),
    Truth(bool),
    OneEvent(u32),
    Cookie(&'static str),
    SetOne(&'static str),
    Estimate(u64),
    Cleared(u32),
}

const REPLIES: &[(&str, Option<&str>, Answer, &str)] = &[
    (
        "set",
        Some("https://a.test"),
        Answer::Plain("ok"),
        "{\"do\":\"set\",\"is\":\"ok\",\"site\":\"https://a.test\"}\n",
    ),
    (
        "open",
        None,
        Answer::Plain("tab-exists"),
        "{\"do\":\"open\",\"is\":\"tab-exists\",\"site\":null}\n",
    ),
    (
        "get",
        Some("http://a.test"),
        Answer::Text(Some("a\"\u{e9}\n")),
        "{\"do\":\"get\",\"is\":\"ok\",\"site\":\"http://a.test\",\"value\":\"a\\\"\u{e9}\\n\"}\n",
    ),
    (
        "get",
        Some("http://a.test"),
        Answer::Text(None),
        "{\"do\":\"get\",\"is\":\"ok\",\"site\":\"http://a.test\",\"value\":null}\n",
    ),
    (
        "open",
        Some("https://a.test"),
        Answer::Load(None, &[]),
        "{\"cookie\":null,\"do\":\"open\",\"is\":\"ok\",\"set\":[],\
            \"site\":\"https://a.test\"}\n",
    ),
    (
        "fetch",
        Some("https://a.test"),
        Answer::Load(Some("a=\"b\"; c=d"), &["added", "empty", "removed"]),
        "{\"cookie\":\"a=\\\"b\\\"; c=d\",\"do\":\"fetch\",\"is\":\"ok\",\
            \"set\":[\"added\",\"empty\",\"removed\"],\"site\":\"https://a.test\"}\n",
    ),
    (
        "tick",
        None,
        Answer::Now(12),
        "{\"do\":\"tick\",\"is\":\"ok\",\"now\":12,\"site\":null}\n",
    ),
    (
        "restart",
        None,
        Answer::Kept(3),
        "{\"do\":\"restart\",\"is\":\"ok\",\"kept\":3,\"site\":null}\n",
    ),
    (
        "len",
        None,
        Answer::Number(2),
        "{\"do\":\"len\",\"is\":\"ok\",\"site\":null,\"value\":2}\n",
    ),
    (
        "has",
        None,
        Answer::Truth(false),
        "{\"do\":\"has\",\"is\":\"ok\",\"site\":null,\"value\":false}\n",
    ),
    (
        "request",
        Some("https://a.test"),
        Answer::Plain("granted"),
        "{\"do\":\"request\",\"is\":\"granted\",\"site\":\"https://a.test\"}\n",
    ),
    (
        "request",
        Some("https://a.test"),
        Answer::Plain("no-activation"),
        "{\"do\":\"request\",\"is\":\"no-activation\",\"site\":\"https://a.test\"}\n",
    ),
    (
        "events",
        None,
        Answer::OneEvent(5),
        "{\"do\":\"events\",\"events\":[{\"area\":\"session\",\"key\":\"k\",\"new\":\"\\u0001\",\
            \"old\":null,\"url\":\"https://a.test/\"}],\"is\":\"ok\",\"lost\":5,\"site\":null}\n",
    ),
    (
        "cookie",
        None,
        Answer::Cookie("a=b"),
        "{\"cookie\":\"a=b\",\"do\":\"cookie\",\"is\":\"ok\",\"site\":null}\n",
    ),
    (
        "cookie",
        None,
        Answer::Cookie(""),
        "{\"cookie\":\"\",\"do\":\"cookie\",\"is\":\"ok\",\"site\":null}\n",
    ),
    (
        "setcookie",
        None,
        Answer::SetOne("added"),
        "{\"do\":\"setcookie\",\"is\":\"ok\",\"set\":[\"added\"],\"site\":null}\n",
    ),
    (
        "estimate",
        None,
        Answer::Estimate(2),
        "{\"do\":\"estimate\",\"is\":\"ok\",\"quota\":5242880,\"site\":null,\"usage\":2}\n",
    ),
    (
        "evict",
        None,
        Answer::Cleared(1),
        "{\"cleared\":1,\"do\":\"evict\",\"is\":\"ok\",\"site\":null}\n",
    ),
];

// A text that is owned, if there is one.
fn owned(alloc: Global, text: Option<&str>) -> Result<Option<String>, Fail> {
    match text {
        Some(text) => Ok(Some(String::from_str(alloc, text)?)),
        None => Ok(None),
    }
}

// A body of a document that was loaded, with this Cookie header and these answers to Set-Cookie
// texts.
fn load_body(
    alloc: Global,
    cookie: Option<&str>,
    answers: &[&'static str],
) -> Result<ReplyBody, Fail> {
    let set = Vec::from_slice(alloc, answers)?;
    let cookie = owned(alloc, cookie)?;
    Ok(ReplyBody::Load { cookie, set })
}

// An event of a session area.
fn event(alloc: Global) -> Result<Event, Fail> {
    let after = Some("\u{1}");
    let url = "https://a.test/";
    Ok(Event::new(alloc, AreaKind::Session, Some("k"), None, after, url)?)
}

// A body of this event, after so many were lost.
fn event_body(alloc: Global, lost: u32) -> Result<ReplyBody, Fail> {
    let mut events = Vec::new(alloc);
    events.push(event(alloc)?)?;
    Ok(ReplyBody::Events { events, lost })
}

// The body of this answer.
fn body(alloc: Global, answer: Answer) -> Result<ReplyBody, Fail> {
    match answer {
        Answer::Plain(is) => Ok(ReplyBody::Plain { is }),
        Answer::Now(now) => Ok(ReplyBody::Now { now }),
        Answer::Kept(kept) => Ok(ReplyBody::Kept { kept }),
        Answer::Load(cookie, answers) => load_body(alloc, cookie, answers),
        Answer::Text(text) => Ok(ReplyBody::Text {
            value: owned(alloc, text)?,
        }),
        Answer::Number(value) => Ok(ReplyBody::Number { value }),
        Answer::Truth(value) => Ok(ReplyBody::Truth { value }),
        Answer::OneEvent(lost) => event_body(alloc, lost),
        Answer::Cookie(text) => Ok(ReplyBody::Cookie {
            cookie: String::from_str(alloc, text)?,
        }),
        Answer::SetOne(set) => Ok(ReplyBody::SetOne { set }),
        Answer::Estimate(usage) => Ok(ReplyBody::Estimate { usage }),
        Answer::Cleared(cleared) => Ok(ReplyBody::Cleared { cleared }),
    }
}

// The site of this text, if there is one.
fn site_of(alloc: Global, text: Option<&str>) -> Result<Option<Site>, Fail> {
    match text {
        Some(text) => Ok(Some(Site::read(alloc, text)?)),
        None => Ok(None),
    }
}

// The line of a reply, through a copy of it.
fn line_of(alloc: Global, reply: &Reply) -> Result<Vec<u8>, Fail> {
    let copy = reply.copy(alloc)?;
    Ok(print(alloc, &copy)?)
}

// The line of a reply of this name, site and answer.
fn printed(
    alloc: Global,
    name: &'static str,
    site: Option<&str>,
    answer: Answer,
) -> Result<Vec<u8>, Fail> {
    let site = site_of(alloc, site)?;
    let body = body(alloc, answer)?;
    line_of(alloc, &Reply { name, site, body })
}

fn is_printed(
    alloc: Global,
    (name, site, answer, want): (&'static str, Option<&str>, Answer, &str),
) -> Result<bool, Fail> {
    Ok(printed(alloc, name, site, answer)?.as_slice() == want.as_bytes())
}

#[test]
fn lines_of_replies(rt: HostRuntime) -> Result<(), Fail> {
    let alloc = rt.alloc();
    for row in REPLIES {
        assert!(rt; is_printed(alloc, *row)?, "{}", row.3);
    }
    Ok(())
}

// A reply to a close, printed over what stood in a buffer.
fn printed_over(alloc: Global) -> Result<Vec<u8>, Fail> {
    let mut line = Vec::from_slice(alloc, b"what stood there")?;
    let closed = Reply {
        name: "close",
        site: None,
        body: ReplyBody::Plain { is: "ok" },
    };
    print_into(&mut line, &closed)?;
    Ok(line)
}

#[test]
fn a_kept_buffer_holds_the_last_line_alone(rt: HostRuntime) -> Result<(), Fail> {
    let line = printed_over(rt.alloc())?;
    let want = "{\"do\":\"close\",\"is\":\"ok\",\"site\":null}\n";
    assert!(rt; line.as_slice() == want.as_bytes());
    Ok(())
}
