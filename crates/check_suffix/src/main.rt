//! Compares registrable domains under a suffix list with rows from standard input.
#![tactic(auto)]

use agent_base::ReadSource;
use idna::{AsciiDenyList, Errors, domain_to_ascii_cow};
use std::alloc::Global;
use std::fs::File;
use std::{env, io};
use suffix_list::SuffixList;

// The ASCII form of a name, or none where it has none.
fn ascii_of(alloc: Global, name: &str) -> io::Result<Option<String>> {
    match domain_to_ascii_cow(alloc, name.as_bytes(), AsciiDenyList::URL) {
        Ok(ascii) => Ok(Some(ascii.into_owned(alloc)?)),
        Err(Errors::Invalid) => Ok(None),
        Err(Errors::OutOfMemory) => Err(io::ErrorKind::OutOfMemory.into()),
    }
}

// The registrable domain of a host, `null` where it has none, and `?` where this is no host.
fn domain_of(alloc: Global, list: &SuffixList, host: &str) -> io::Result<String> {
    let Some(ascii) = ascii_of(alloc, host)? else {
        return Ok(String::from_str(alloc, "?")?);
    };
    let domain = list.registrable(ascii.as_str()).unwrap_or("null");
    Ok(String::from_str(alloc, domain)?)
}

// Whether a row agrees. One that does not is printed with what was found.
fn agrees(rt: &HostRuntime, list: &SuffixList, host: &str, want: &str) -> io::Result<bool> {
    let found = domain_of(rt.alloc(), list, host)?;
    let wanted = ascii_of(rt.alloc(), want)?;
    let same = wanted.as_deref().unwrap_or(want) == found.as_str();
    if !same {
        println!(rt; "{host}: {found}, and not {want}")?;
    }
    Ok(same)
}

fn is_row(line: &str) -> bool {
    !line.is_empty() && !line.starts_with("//")
}

fn check_rows(rt: &HostRuntime, list: &SuffixList) -> io::Result<()> {
    let mut rows: u64 = 0;
    let mut differ: u64 = 0;
    'rows: for line in rt.lines(rt.alloc()) {
        let row = line?;
        if !is_row(row.as_str()) {
            continue;
        }
        let (host, want) = row.as_str().split_once(' ').unwrap_or((row.as_str(), ""));
        rows = rows.saturating_add(1);
        if !agrees(rt, list, host, want)? {
            differ = differ.saturating_add(1);
        }
    }
    println!(rt; "{rows} rows, {differ} differ")?;
    Ok(())
}

fn main(rt: HostRuntime) -> io::Result<()> {
    let Some(path) = env::args(&rt)?.nth(1) else {
        return Ok(eprintln!(rt; "usage: check_suffix LIST < rows")?);
    };
    let mut source = ReadSource::new(File::open(&rt, path.as_str())?);
    match SuffixList::read(rt.alloc(), &mut source) {
        Ok(list) => check_rows(&rt, &list),
        Err(fault) => Ok(eprintln!(rt; "{fault}")?),
    }
}
