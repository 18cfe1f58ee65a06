//! Worked chains, and each call that takes memory with ample memory.
use crate::shared::{list_of, origin_at};
use agent_base::NoMemory;
use origin_site::{Origin, Site, same_origin};
use std::alloc::Global;
use std::cmp::Ordering;
use std::test::Fail;
use storage_key::{Context, StorageKey, key_of, order_of, same_key};

// The sites of these texts; an empty text is an opaque document.
fn chain_of(alloc: Global, texts: &[&str]) -> Result<Vec<Option<Site>>, Fail> {
    let mut chain = Vec::new(alloc);
    for text in texts {
        let site = match text.is_empty() {
            true => None,
            false => Some(Site::read(alloc, text)?),
        };
        chain.push(site)?;
    }
    Ok(chain)
}

// The key under a chain with a top; the calls below give no other chain.
fn key_under(
    alloc: Global,
    chain: &[Option<Site>],
    origin: Option<&Origin>,
) -> Result<Option<StorageKey>, NoMemory> {
    match chain {
        [Some(_), ..] => key_of(alloc, chain, origin),
        _ => Err(NoMemory),
    }
}

// The context in which a document at the end of a chain loads what is at a site.
fn context_at(alloc: Global, chain: &[&str], url: &str) -> Result<Context, Fail> {
    let sites = chain_of(alloc, chain)?;
    let site = Site::read(alloc, url)?;
    Ok(Context::of(sites.as_slice(), &site))
}

// Whether the key at the end of a chain is that of this origin under `https://a.test`, with this
// bit.
fn is_key(alloc: Global, chain: &[&str], own: &str, bit: bool) -> Result<bool, Fail> {
    let sites = chain_of(alloc, chain)?;
    let own = origin_at(alloc, own)?;
    let Some(key) = key_under(alloc, sites.as_slice(), Some(&own))? else {
        return Ok(false);
    };
    let top = key.top.text(alloc)?;
    Ok(top.as_str() == "https://a.test" && same_origin(&key.origin, &own) && key.bit == bit)
}

// A chain, the site of a URL, whether it is first party there, and the bit of the key.
const CHAINS: &[(&[&str], &str, bool, bool)] = &[
    (&["https://a.test"], "https://a.test", true, false),
    (
        &["https://a.test", "https://a.test"],
        "https://a.test",
        true,
        false,
    ),
    (
        &["https://a.test", "https://a.test"],
        "https://b.test",
        false,
        false,
    ),
    (&["https://a.test"], "http://a.test", false, false),
    (
        &["https://a.test", "https://b.test"],
        "https://b.test",
        false,
        true,
    ),
    (
        &["https://a.test", "https://b.test", "https://a.test"],
        "https://a.test",
        false,
        true,
    ),
    (
        &["https://a.test", "", "https://a.test"],
        "https://a.test",
        false,
        true,
    ),
];

#[test]
fn keys_of_worked_chains(rt: HostRuntime) -> Result<(), Fail> {
    let alloc = rt.alloc();
    for (chain, url, first, bit) in CHAINS {
        let context = context_at(alloc, chain, url)?;
        assert!(rt; context.first == *first && context.bit != *first, "{url}");
        let own = match chain.last() {
            Some(last) => *last,
            None => *url,
        };
        assert!(rt; is_key(alloc, chain, own, *bit)?, "the key at {url}");
    }
    Ok(())
}

// The key of an origin in a document of `https://b.test` below one of `https://a.test`.
fn key_at(alloc: Global, text: &str) -> Result<Option<StorageKey>, Fail> {
    let chain = chain_of(alloc, &["https://a.test", "https://b.test"])?;
    let origin = origin_at(alloc, text)?;
    Ok(key_under(alloc, chain.as_slice(), Some(&origin))?)
}

fn are_in_order(lower: &StorageKey, copy: &StorageKey, higher: &StorageKey) -> bool {
    same_key(lower, copy)
        && !same_key(lower, higher)
        && order_of(lower, higher) == Ordering::Less
        && order_of(lower, copy) == Ordering::Equal
}

// Whether copies of a key are in order with it, and with a higher one.
fn copies_are_in_order(alloc: Global) -> Result<bool, Fail> {
    let lower = key_at(alloc, "https://b.test")?;
    let higher = key_at(alloc, "https://b.test:444/")?;
    let (Some(lower), Some(higher)) = (lower, higher) else {
        return Ok(false);
    };
    let copied = are_in_order(&lower, &lower.copy(alloc)?, &higher);
    Ok(copied && are_in_order(&lower, &lower.clone()?, &higher))
}

// Whether an opaque origin has no key.
fn opaque_has_no_key(alloc: Global) -> Result<bool, Fail> {
    let chain = chain_of(alloc, &["https://a.test", "https://b.test"])?;
    Ok(key_under(alloc, chain.as_slice(), None)?.is_none())
}

#[test]
fn copies_and_order_of_keys(rt: HostRuntime) -> Result<(), Fail> {
    let alloc = rt.alloc();
    assert!(rt; opaque_has_no_key(alloc)?);
    assert!(rt; copies_are_in_order(alloc)?);
    Ok(())
}

// A list, the top-level site and the origin of a key, its bit, and whether the list has it.
const STAYS: &[(&str, &str, &str, bool, bool)] = &[
    ("", "https://co.uk", "https://www.shop.co.uk", false, true),
    (
        "co.uk",
        "https://co.uk",
        "https://www.shop.co.uk",
        false,
        false,
    ),
    (
        "co.uk",
        "https://co.uk",
        "https://www.shop.co.uk",
        true,
        true,
    ),
    (
        "co.uk",
        "https://shop.co.uk",
        "https://www.shop.co.uk",
        false,
        true,
    ),
    (
        "co.uk",
        "http://shop.co.uk",
        "https://www.shop.co.uk",
        false,
        false,
    ),
    (
        "",
        "https://shop.co.uk",
        "https://www.shop.co.uk",
        true,
        false,
    ),
    ("3.4", "http://1.2.3.4", "http://1.2.3.4:8080", false, true),
];

fn stays(alloc: Global, (rules, top, origin, bit): (&str, &str, &str, bool)) -> Result<bool, Fail> {
    let key = StorageKey {
        top: Site::read(alloc, top)?,
        origin: origin_at(alloc, origin)?,
        bit,
    };
    Ok(key.stays(&list_of(alloc, rules)?))
}

#[test]
fn keys_of_lists(rt: HostRuntime) -> Result<(), Fail> {
    let alloc = rt.alloc();
    for (rules, top, origin, bit, stay) in STAYS {
        let found = stays(alloc, (*rules, *top, *origin, *bit))?;
        assert!(rt; found == *stay, "{origin} under {top}");
    }
    Ok(())
}
