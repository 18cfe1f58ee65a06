//! Row changes as fields, written by hand.
use Part::{Byte, Letters, Raw, Signed, Text};
use row_changes::{read_change, write_rows};
use std::alloc::Global;
use std::test::Fail;

pub const HTTPS_A: Part = Text("https://a.test");

pub const HTTP_A: Part = Text("http://a.test");

/// A field of a row change, as the format writes it.
#[derive(Clone, Copy, Debug)]
pub enum Part {
    Byte(u8),
    Text(&'static str),
    /// A text of so many letters.
    Letters(u32),
    Signed(i64),
    Raw(&'static [u8]),
}

/// The fields of a row change, and whether it is one.
#[derive(Clone, Copy)]
pub struct Row {
    pub name: &'static str,
    pub parts: &'static [Part],
    pub taken: bool,
}

pub fn put(out: &mut Vec<u8>, part: Part) -> Result<(), Fail> {
    match part {
        Byte(byte) => out.push(byte)?,
        Text(text) => {
            let length = u32::try_from(text.len()).unwrap_or(u32::MAX);
            out.extend_from_slice(&length.to_le_bytes())?;
            out.extend_from_slice(text.as_bytes())?;
        }
        Letters(count) => {
            out.extend_from_slice(&count.to_le_bytes())?;
            for _ in 0..count {
                out.push(b'x')?;
            }
        }
        Signed(number) => out.extend_from_slice(&number.to_le_bytes())?,
        Raw(bytes) => out.extend_from_slice(bytes)?,
    }
    Ok(())
}

pub fn bytes_of(alloc: Global, parts: &[Part]) -> Result<Vec<u8>, Fail> {
    let mut out = Vec::new(alloc);
    for part in parts {
        put(&mut out, *part)?;
    }
    Ok(out)
}

// Whether bytes are one row change, which has these bytes when it is written again.
pub fn is_change(alloc: Global, bytes: &[u8]) -> Result<bool, Fail> {
    let Some((change, rest)) = read_change(alloc, bytes)? else {
        return Ok(false);
    };
    let mut changes = Vec::new(alloc);
    changes.push(change)?;
    let again = write_rows(alloc, changes.as_slice())?;
    Ok(rest.is_empty() && again.as_slice() == bytes)
}
