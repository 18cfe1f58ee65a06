//! Addresses, origins and sites from outside, and calls that take memory where there is enough.
use crate::shared::list_of;
use origin_site::{
    Address, AddressFault, Origin, Site, SiteFault, domain_under, is_ip_host, is_own_host,
    same_origin, same_site, site_of,
};
use std::alloc::Global;
use std::test::Fail;

// A list, an address, and the site of its origin.
const SITES: &[(&str, &str, &str)] = &[
    ("", "https://user@x.a.test:8443/p?q#f", "https://a.test"),
    ("", "HTTP://LOCALHOST", "http://localhost"),
    ("", "http://1.2.3./", "http://1.2.0.3"),
    ("", "https://[1:0::1]", "https://[1::1]"),
    ("", "https://a..test/", "https://.test"),
    ("", "https://食狮.test/", "https://xn--85x722f.test"),
    ("*.ck\n!www.ck", "https://www.ck/", "https://www.ck"),
    ("*.ck\n!www.ck", "https://x.www.ck/", "https://www.ck"),
    ("*.ck\n!www.ck", "https://x.a.b.ck/", "https://a.b.ck"),
    ("*.ck\n!www.ck", "https://b.ck/", "https://b.ck"),
    (
        "食狮.test",
        "https://x.a.食狮.test/",
        "https://a.xn--85x722f.test",
    ),
    ("7\n2.7", "https://192.0.2.7:8443/", "https://192.0.2.7"),
    ("com", "https://a.b.telecom", "https://b.telecom"),
    ("*.test", "https://a..test/", "https://a..test"),
];

// The origin of an address, through a copy of each.
fn copied_origin(alloc: Global, text: &str) -> Result<Origin, Fail> {
    let address = Address::read(alloc, text)?.copy(alloc)?;
    Ok(address.origin(alloc)?.copy(alloc)?)
}

// The site of an address under a list, through a copy of it.
fn site_at(alloc: Global, rules: &str, text: &str) -> Result<Site, Fail> {
    let list = list_of(alloc, rules)?;
    let origin = copied_origin(alloc, text)?;
    Ok(site_of(alloc, &origin, &list)?.copy(alloc)?)
}

// Whether a site has this text, and is what that reads as.
fn is_named(alloc: Global, site: &Site, text: &str) -> Result<bool, Fail> {
    let read = Site::read(alloc, text)?;
    Ok(same_site(site, &read) && site.text(alloc)?.as_str() == text)
}

// Whether an address is at this site, whose text is an address at it.
fn is_site(alloc: Global, rules: &str, text: &str, named: &str) -> Result<bool, Fail> {
    let site = site_at(alloc, rules, text)?;
    let again = site_at(alloc, rules, named)?;
    Ok(same_site(&site, &again) && is_named(alloc, &site, named)?)
}

#[test]
fn sites_of_addresses(rt: HostRuntime) -> Result<(), Fail> {
    let alloc = rt.alloc();
    for (rules, text, site) in SITES {
        assert!(rt; is_site(alloc, rules, text, site)?, "{text}");
    }
    Ok(())
}

// An address, and the text of its origin.
const ORIGINS: &[(&str, &str)] = &[
    ("https://a.test:443/p", "https://a.test"),
    ("http://a.test:443/p", "http://a.test:443"),
    ("https://a.test:80/p", "https://a.test:80"),
    ("http://[::1]:80", "http://[::1]"),
];

fn is_shown(alloc: Global, text: &str, shown: &str) -> Result<bool, Fail> {
    let origin = copied_origin(alloc, text)?;
    Ok(origin.text(alloc)?.as_str() == shown)
}

#[test]
fn texts_of_origins(rt: HostRuntime) -> Result<(), Fail> {
    let alloc = rt.alloc();
    for (text, shown) in ORIGINS {
        assert!(rt; is_shown(alloc, text, shown)?, "{text}");
    }
    Ok(())
}

const NO_SITES: &[&str] = &[
    "",
    "a.test",
    "https://a.test/",
    "https://a.test:443",
    "https://a.test:8443",
    "https://A.test",
    "https://a.test.",
    "ftp://a.test",
    " https://a.test",
    "https://user@a.test",
    "http://1.2.3",
    "https://食狮.test",
];

fn is_no_site(alloc: Global, text: &str) -> bool {
    matches!(Site::read(alloc, text), Err(SiteFault::NotSite))
}

#[test]
fn texts_that_are_no_site(rt: HostRuntime) -> Result<(), Fail> {
    let alloc = rt.alloc();
    for text in NO_SITES {
        assert!(rt; is_no_site(alloc, text), "{text}");
    }
    Ok(())
}

// A text that is no address, and its first fault.
const FAULTS: &[(&str, AddressFault)] = &[
    ("a.test", AddressFault::NotUrl),
    ("https://", AddressFault::NotUrl),
    ("ftp://a.test./", AddressFault::OtherScheme),
    ("https://a.test./", AddressFault::TrailingDot),
];

fn fault_of(alloc: Global, text: &str) -> Option<AddressFault> {
    Address::read(alloc, text).err()
}

#[test]
fn first_fault_of_a_text(rt: HostRuntime) -> Result<(), Fail> {
    let alloc = rt.alloc();
    for (text, why) in FAULTS {
        assert!(rt; fault_of(alloc, text) == Some(*why), "{text}");
    }
    Ok(())
}

// The fault of a text of so many bytes, which is an address but for its length.
fn fault_at(alloc: Global, length: usize) -> Result<Option<AddressFault>, Fail> {
    let mut text = String::from_str(alloc, "http://a.test/")?;
    for _ in text.len()..length {
        text.push('x')?;
    }
    Ok(fault_of(alloc, text.as_str()))
}

#[test]
fn text_of_8192_bytes_is_the_longest(rt: HostRuntime) -> Result<(), Fail> {
    let alloc = rt.alloc();
    assert!(rt; fault_at(alloc, 8_192)?.is_none());
    assert!(rt; fault_at(alloc, 8_193)? == Some(AddressFault::TooLong));
    Ok(())
}

// An address, and whether its origin is that of `https://a.test/p`.
const SAME: &[(&str, bool)] = &[
    ("https://A.test:443/q", true),
    ("http://a.test:443/", false),
    ("https://a.test:444/", false),
    ("https://b.test/", false),
];

fn at_one_origin(alloc: Global, text: &str, other: &str) -> Result<bool, Fail> {
    let one = copied_origin(alloc, text)?;
    let other = copied_origin(alloc, other)?;
    Ok(same_origin(&one, &other))
}

#[test]
fn ports_and_schemes_tell_origins_apart(rt: HostRuntime) -> Result<(), Fail> {
    let alloc = rt.alloc();
    for (text, same) in SAME {
        let found = at_one_origin(alloc, "https://a.test/p", text)?;
        assert!(rt; found == *same, "{text}");
    }
    Ok(())
}

// A list, an address, whether its host is an IP address, and the domain of the host.
const HOSTS: &[(&str, &str, bool, &str)] = &[
    ("*", "http://[::1]/", true, "[::1]"),
    ("*\n3.4", "http://1.2.3.4/", true, "1.2.3.4"),
    ("*\n0.1", "http://0x7f.1/", true, "127.0.0.1"),
    ("", "http://1e3.test/", false, "1e3.test"),
    ("test", "http://x.1e3.test/", false, "1e3.test"),
    ("", "http://a.1b/", false, "a.1b"),
    ("*", "http://4.a.1b/", false, "a.1b"),
    ("a.1b", "http://a.1b/", false, "a.1b"),
    ("", "http://1.2.3.4.test/", false, "4.test"),
    ("", "http://localhost/", false, "localhost"),
];

// Whether the host of an address tells its kind and its domain.
fn tells(alloc: Global, rules: &str, text: &str, ip: bool, domain: &str) -> Result<bool, Fail> {
    let list = list_of(alloc, rules)?;
    let address = Address::read(alloc, text)?;
    let host = address.host.as_str();
    let kind = address.ip == ip && is_ip_host(host) == ip;
    let own = is_own_host(host, &list) == (host == domain);
    Ok(kind && own && domain_under(host, &list) == domain && is_own_host(domain, &list))
}

#[test]
fn hosts_tell_their_kind(rt: HostRuntime) -> Result<(), Fail> {
    let alloc = rt.alloc();
    for (rules, text, ip, domain) in HOSTS {
        assert!(rt; tells(alloc, rules, text, *ip, domain)?, "{text}");
    }
    Ok(())
}
