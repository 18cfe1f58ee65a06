//! A body of 200,000 durable changes, each a pair under a site of its own.
use journal::Replay;
use origin_site::{Address, Site};
use row_store::{Parts, Rows};
use std::alloc::Global;
use std::test::Fail;
use storage_key::StorageKey;

/// How many sites there are. Each change takes 64 bytes of the body.
const SITES: u32 = 200_000;

// The text of the site of a number.
fn site_text(number: u32) -> [u8; 20] {
    let mut text = *b"https://s000000.test";
    let mut rest = number;
    for place in 0..6 {
        text[14 - place] = b'0' + (rest % 10) as u8;
        rest /= 10;
    }
    text
}

fn put_text(body: &mut Vec<u8>, text: &[u8]) -> Result<(), Fail> {
    let length = u32::try_from(text.len()).unwrap_or(u32::MAX);
    body.extend_from_slice(&length.to_le_bytes())?;
    body.extend_from_slice(text)?;
    Ok(())
}

// A durable change of one row change: a pair of the first-party area of a site.
fn put_change(body: &mut Vec<u8>, number: u32) -> Result<(), Fail> {
    let site = site_text(number);
    body.extend_from_slice(&1u32.to_le_bytes())?;
    body.push(1)?;
    put_text(body, &site)?;
    put_text(body, &site)?;
    body.push(0)?;
    put_text(body, b"k")?;
    put_text(body, b"v")
}

fn body_of_sites(alloc: Global) -> Result<Vec<u8>, Fail> {
    let mut body = Vec::new(alloc);
    for number in 0..SITES {
        put_change(&mut body, number)?;
    }
    Ok(body)
}

fn key_of(alloc: Global, number: u32) -> Result<StorageKey, Fail> {
    let bytes = site_text(number);
    let text = std::str::from_utf8(&bytes).unwrap_or("");
    Ok(StorageKey {
        top: Site::read(alloc, text)?,
        origin: Address::read(alloc, text)?.origin(alloc)?,
        bit: false,
    })
}

// How many sites have their pair.
fn found(alloc: Global, parts: &Parts) -> Result<u32, Fail> {
    let mut count: u32 = 0;
    for number in 0..SITES {
        let key = key_of(alloc, number)?;
        if let Some(area) = parts.area_rows(&key) {
            if area.get("k") == Some("v") {
                count = count.saturating_add(1);
            }
        }
    }
    Ok(count)
}

#[test]
fn each_of_200_000_sites_has_its_pair(rt: HostRuntime) -> Result<(), Fail> {
    let alloc = rt.alloc();
    let body = body_of_sites(alloc)?;
    assert_eq!(rt; body.len(), 12_800_000);
    let mut rows = Rows::new(alloc);
    assert_eq!(rt; rows.frame(false, body.as_slice()), Ok(200_000));
    assert_eq!(rt; found(alloc, &rows.into_parts())?, SITES);
    Ok(())
}
