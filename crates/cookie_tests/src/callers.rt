//! The callers that the READMEs of `suffix_list`, `setcookie_parse` and `cookie_jar` show.
use agent_base::MemSource;
use cookie_jar::{Access, Jar, header};
use partition_limits::CellKind;
use setcookie_parse::{Parsed, cookie_date, parse};
use std::alloc::Global;
use std::test::Fail;
use suffix_list::SuffixList;

fn list_of_three(alloc: Global) -> Result<SuffixList, Fail> {
    let rules = Vec::from_slice(alloc, b"com\nco.uk\ntest")?;
    Ok(SuffixList::read(alloc, &mut MemSource::new(rules, Vec::new(alloc)))?)
}

#[test]
fn a_list_is_read_and_asked(rt: HostRuntime) -> Result<(), Fail> {
    let alloc = rt.alloc();
    let rules = Vec::from_slice(alloc, b"// a remark\ncom\nco.uk\n*.ck\n!www.ck")?;
    let mut source = MemSource::new(rules, Vec::new(alloc));
    let list = SuffixList::read(alloc, &mut source)?;
    let domain = list.registrable("www.shop.co.uk");
    let none = list.registrable("co.uk");
    assert!(rt; domain == Some("shop.co.uk"));
    assert!(rt; none.is_none());
    Ok(())
}

#[test]
fn a_text_and_a_date_are_read(rt: HostRuntime) -> Result<(), Fail> {
    let now = 1_000;
    let text = "id=7; Path=/docs; Max-Age=60; Secure; SameSite=None; Partitioned";
    let (name, expiry) = match parse(text, now) {
        Parsed::Kept(cookie) => (cookie.name, cookie.expiry),
        Parsed::Dropped(_) => ("", None),
    };
    let moment = cookie_date("Sun, 06 Nov 1994 08:49:37 GMT");
    assert!(rt; name == "id" && expiry == Some(1_060));
    assert!(rt; moment == Some(784_111_777));
    Ok(())
}

#[test]
fn a_cookie_is_stored_and_sent(rt: HostRuntime) -> Result<(), Fail> {
    let alloc = rt.alloc();
    let list = list_of_three(alloc)?;
    let now = 1_000;
    let mut own = Jar::new(alloc, CellKind::Own);
    let part = Jar::new(alloc, CellKind::Partition);
    let page = Access {
        https: true,
        host: "shop.test",
        ip: false,
        path: "/docs/web",
        first: true,
        same_site: true,
        top_load: true,
        safe: true,
        script: false,
        granted: false,
    };
    if let Parsed::Kept(text) = parse("a=b; Path=/docs; Secure", now) {
        let _ = own.store(alloc, &text, &page, &list, now);
    }
    let asked = Access {
        path: "/docs",
        ..page
    };
    let places = own.pick(alloc, &asked, now + 1)?;
    own.mark(&places, now + 1);
    let text = header(alloc, &own, &places, &part, &[])?;
    assert!(rt; text.as_str() == "a=b");
    Ok(())
}
