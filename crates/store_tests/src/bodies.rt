//! Bodies of frames, written by hand field by field.
use Edit::{Clear, Grant, Insert, Mode, Numbered, Put, Remove, Replace, TakeOut, Weigh};
use agent_base::MemSource;
use std::alloc::Global;
use std::test::Fail;
use suffix_list::SuffixList;

const HTTPS_A: &str = "https://a.test";

/// A row change of the area of `https://a.test`, of the unpartitioned cell of `a.test`, or of the
/// cell of `w.test` under `https://a.test`.
#[derive(Clone, Copy, Debug)]
pub enum Edit {
    Put(&'static str, &'static str),
    /// A pair of the name `k` and a value of so many letters.
    Weigh(u32),
    Remove(&'static str),
    Clear,
    Mode,
    /// Whether the cell is partitioned, the place, the name, and the letters of the value.
    Insert(bool, u8, &'static str, u32),
    /// A cookie at a place, whose name is that of the place.
    Numbered(bool, u8),
    Replace(bool, u8, &'static str, u32),
    TakeOut(bool, u8),
    /// The embedded site, and whether it is a grant.
    Grant(&'static str, bool),
}

fn put_text(out: &mut Vec<u8>, text: &str) -> Result<(), Fail> {
    let length = u32::try_from(text.len()).unwrap_or(u32::MAX);
    out.extend_from_slice(&length.to_le_bytes())?;
    out.extend_from_slice(text.as_bytes())?;
    Ok(())
}

fn put_letters(out: &mut Vec<u8>, count: u32) -> Result<(), Fail> {
    out.extend_from_slice(&count.to_le_bytes())?;
    for _ in 0..count / 1_024 {
        out.extend_from_slice(&[b'x'; 1_024])?;
    }
    for _ in 0..count % 1_024 {
        out.push(b'x')?;
    }
    Ok(())
}

// A code and the key of `https://a.test`.
fn put_key(out: &mut Vec<u8>, code: u8) -> Result<(), Fail> {
    out.push(code)?;
    put_text(out, HTTPS_A)?;
    put_text(out, HTTPS_A)?;
    out.push(0)?;
    Ok(())
}

// A code, a cell and a place.
fn put_place(out: &mut Vec<u8>, code: u8, partitioned: bool, place: u8) -> Result<(), Fail> {
    out.push(code)?;
    if partitioned {
        out.push(1)?;
        put_text(out, HTTPS_A)?;
        out.push(1)?;
        put_text(out, "w.test")?;
    } else {
        out.push(0)?;
        put_text(out, "a.test")?;
    }
    out.push(place)?;
    Ok(())
}

// A Secure cookie of the domain of a cell.
fn put_cookie(out: &mut Vec<u8>, partitioned: bool, name: &str, letters: u32) -> Result<(), Fail> {
    put_text(out, name)?;
    put_letters(out, letters)?;
    put_text(out, if partitioned { "w.test" } else { "a.test" })?;
    put_text(out, "/")?;
    out.push(2)?;
    out.push(0)?;
    out.extend_from_slice(&1i64.to_le_bytes())?;
    out.extend_from_slice(&9i64.to_le_bytes())?;
    Ok(())
}

fn put_insert(
    out: &mut Vec<u8>,
    partitioned: bool,
    place: u8,
    name: &str,
    letters: u32,
) -> Result<(), Fail> {
    put_place(out, 5, partitioned, place)?;
    put_cookie(out, partitioned, name, letters)
}

// A permission under `https://a.test`.
fn put_grant(out: &mut Vec<u8>, site: &str, granted: bool) -> Result<(), Fail> {
    out.push(8)?;
    put_text(out, HTTPS_A)?;
    put_text(out, site)?;
    out.push(if granted { 1 } else { 2 })?;
    out.extend_from_slice(&9i64.to_le_bytes())?;
    Ok(())
}

/// Adds a row change to a body.
pub fn put(out: &mut Vec<u8>, edit: Edit) -> Result<(), Fail> {
    match edit {
        Put(name, value) => {
            put_key(out, 1)?;
            put_text(out, name)?;
            put_text(out, value)?;
        }
        Weigh(letters) => {
            put_key(out, 1)?;
            put_text(out, "k")?;
            put_letters(out, letters)?;
        }
        Remove(name) => {
            put_key(out, 2)?;
            put_text(out, name)?;
        }
        Clear => put_key(out, 3)?,
        Mode => put_key(out, 4)?,
        Insert(partitioned, place, name, letters) => {
            put_insert(out, partitioned, place, name, letters)?;
        }
        Numbered(partitioned, place) => {
            let name = [b'a' + place / 16, b'a' + place % 16];
            let name = std::str::from_utf8(&name).unwrap_or("");
            put_insert(out, partitioned, place, name, 1)?;
        }
        Replace(partitioned, place, name, letters) => {
            put_place(out, 6, partitioned, place)?;
            put_cookie(out, partitioned, name, letters)?;
        }
        TakeOut(partitioned, place) => put_place(out, 7, partitioned, place)?,
        Grant(site, granted) => put_grant(out, site, granted)?,
    }
    Ok(())
}

/// Row changes one behind the other, as a snapshot has them.
pub fn snapshot_of(alloc: Global, edits: &[Edit]) -> Result<Vec<u8>, Fail> {
    let mut out = Vec::new(alloc);
    for edit in edits {
        put(&mut out, *edit)?;
    }
    Ok(out)
}

/// A body of one durable change.
pub fn change_of(alloc: Global, edits: &[Edit]) -> Result<Vec<u8>, Fail> {
    front_of(alloc, edits.len(), edits)
}

/// The front of a body of one durable change, which has so many row changes and begins with these.
pub fn front_of(alloc: Global, count: usize, edits: &[Edit]) -> Result<Vec<u8>, Fail> {
    let mut out = Vec::new(alloc);
    let count = u32::try_from(count).unwrap_or(u32::MAX);
    out.extend_from_slice(&count.to_le_bytes())?;
    let rows = snapshot_of(alloc, edits)?;
    out.extend_from_slice(rows.as_slice())?;
    Ok(out)
}

pub fn list_of(alloc: Global, text: &[u8]) -> Result<SuffixList, Fail> {
    let mut source = MemSource::new(Vec::from_slice(alloc, text)?, Vec::new(alloc));
    Ok(SuffixList::read(alloc, &mut source)?)
}
