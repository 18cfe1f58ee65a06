//! One cell of cookies: texts that are stored in it, and the headers of its cookies.
use crate::watch::Watch;
use agent_base::MemSource;
use cookie_jar::{Access, Jar, header};
use partition_limits::CellKind;
use setcookie_parse::{Parsed, parse};
use std::alloc::Global;
use std::io;
use suffix_list::SuffixList;

// 2026-01-01T00:00:00 UTC.
const NOW: i64 = 1_767_225_600;

// A request that loads a page of a shop.
const ACCESS: Access<'static> = Access {
    https: true,
    host: "www.shop.test",
    ip: false,
    path: "/cart",
    first: true,
    same_site: true,
    top_load: true,
    safe: true,
    script: false,
    granted: false,
};

// Texts that name so many cookies.
fn texts_of(alloc: Global, cookies: u32) -> io::Result<Vec<String>> {
    let mut texts = Vec::new(alloc);
    for i in 0..cookies {
        texts.push(format!(in alloc; "c{i}=v{i}; Path=/; Max-Age=60; Secure")?)?;
    }
    Ok(texts)
}

// Stores the cookie of a text, and counts the steps of it.
fn steps_of(alloc: Global, jar: &mut Jar, list: &SuffixList, text: &str) -> u64 {
    let Parsed::Kept(cookie) = parse(text, NOW) else {
        return 0;
    };
    match jar.store(alloc, &cookie, &ACCESS, list, NOW) {
        Ok(stored) => stored.steps.len() as u64,
        Err(_) => 0,
    }
}

// Stores each of the texts in its turn, so many in all.
fn store_all(alloc: Global, jar: &mut Jar, list: &SuffixList, texts: &[String], count: u32) -> u64 {
    let mut steps: u64 = 0;
    let mut next = 0;
    for _ in 0..count {
        let Some(text) = texts.get(next) else {
            return steps;
        };
        steps = steps.wrapping_add(steps_of(alloc, jar, list, text));
        next = if next + 1 < texts.len() { next + 1 } else { 0 };
    }
    steps
}

// The length of the header of all cookies that go out.
fn header_length(alloc: Global, jar: &mut Jar, none: &Jar) -> u64 {
    let Ok(places) = jar.pick(alloc, &ACCESS, NOW) else {
        return 0;
    };
    jar.mark(&places, NOW);
    match header(alloc, jar, &places, none, &[]) {
        Ok(text) => text.len() as u64,
        Err(_) => 0,
    }
}

// So many headers.
fn print_all(alloc: Global, jar: &mut Jar, none: &Jar, count: u32) -> u64 {
    let mut bytes: u64 = 0;
    for _ in 0..count {
        bytes = bytes.wrapping_add(header_length(alloc, jar, none));
    }
    bytes
}

// So many copies, and how many cookies they have.
fn copy_all(alloc: Global, jar: &Jar, count: u32) -> u64 {
    let mut cookies: u64 = 0;
    for _ in 0..count {
        if let Ok(copy) = jar.copy(alloc) {
            cookies = cookies.wrapping_add(copy.len() as u64);
        }
    }
    cookies
}

fn empty_list(alloc: Global) -> Option<SuffixList> {
    let mut source = MemSource::new(Vec::new(alloc), Vec::new(alloc));
    SuffixList::read(alloc, &mut source).ok()
}

pub fn run(rt: &HostRuntime, count: u32, cookies: u32) -> io::Result<()> {
    let alloc = rt.alloc();
    let texts = texts_of(alloc, cookies)?;
    let Some(list) = empty_list(alloc) else {
        return Ok(eprintln!(rt; "jars: out of memory")?);
    };
    let mut jar = Jar::new(alloc, CellKind::Own);
    let none = Jar::new(alloc, CellKind::Partition);
    store_all(alloc, &mut jar, &list, &texts, cookies);
    let watch = Watch::start(rt)?;
    let steps = store_all(alloc, &mut jar, &list, &texts, count);
    watch.tell(rt, "stores", count)?;
    let watch = Watch::start(rt)?;
    let bytes = print_all(alloc, &mut jar, &none, count);
    watch.tell(rt, "headers", count)?;
    let watch = Watch::start(rt)?;
    let copied = copy_all(alloc, &jar, count);
    watch.tell(rt, "copies", count)?;
    println!(rt;
        "jars: {} cookies, {steps} steps, {bytes} bytes, {copied} copied",
        jar.len()
    )?;
    Ok(())
}
