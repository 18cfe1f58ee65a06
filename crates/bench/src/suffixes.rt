//! The load of a suffix list, and hosts looked up in it.
use crate::watch::Watch;
use agent_base::ReadSource;
use std::alloc::Global;
use std::fs::File;
use std::io;
use suffix_list::SuffixList;

// Names under public suffixes of each kind: one label, two, three, behind a wildcard, an
// exception, of the list's private part, and none.
const PARENTS: [&str; 8] = [
    "example.com",
    "example.co.uk",
    "news.example.net.au",
    "shop.example.kobe.jp",
    "www.city.kawasaki.jp",
    "project.github.io",
    "bucket.s3.dualstack.eu-west-1.amazonaws.com",
    "intranet.example.internal",
];

fn hosts_of(alloc: Global, count: u32) -> io::Result<Vec<String>> {
    let mut hosts = Vec::new(alloc);
    for i in 0..count {
        let parent = PARENTS[(i % 8) as usize];
        hosts.push(format!(in alloc; "host{i}.{parent}")?)?;
    }
    Ok(hosts)
}

// The lengths of the registrable domains of all hosts together.
fn look_up_all(list: &SuffixList, hosts: &[String]) -> u64 {
    let mut sum: u64 = 0;
    for host in hosts {
        let found = list.registrable(host.as_str()).unwrap_or("");
        sum = sum.wrapping_add(found.len() as u64);
    }
    sum
}

fn look_up(rt: &HostRuntime, list: &SuffixList, count: u32) -> io::Result<()> {
    let hosts = hosts_of(rt.alloc(), count)?;
    let watch = Watch::start(rt)?;
    let sum = look_up_all(list, &hosts);
    watch.tell(rt, "look-ups", count)?;
    println!(rt; "look-ups: {count} hosts, {sum}")?;
    Ok(())
}

pub fn run(rt: &HostRuntime, path: &str, count: u32) -> io::Result<()> {
    let mut source = ReadSource::new(File::open(rt, path)?);
    let watch = Watch::start(rt)?;
    let read = SuffixList::read(rt.alloc(), &mut source);
    watch.tell(rt, "load", 1)?;
    match read {
        Ok(list) => look_up(rt, &list, count),
        Err(fault) => Ok(eprintln!(rt; "{fault}")?),
    }
}
