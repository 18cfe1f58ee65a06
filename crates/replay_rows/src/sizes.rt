//! A run of many tabs, frames, storage keys and pairs, whose replies are written in several parts.
use crate::row::{Fails, Lines, NO_FAILS, REPLAY, run_texts};
use std::alloc::Global;
use std::test::Fail;

const TABS: u32 = 3_000;

const FRAMES: u32 = 255;

const PAIRS: u32 = 2_000;

// Each tab shows a site of its own, and sets a pair there.
fn add_tab(alloc: Global, lines: &mut Lines, tab: u32) -> Result<(), Fail> {
    lines.add(
        &format!(in alloc; "{{\"do\":\"open\",\"tab\":{tab},\"url\":\"https://s{tab}.test/\"}}")?,
        &format!(in alloc;
            "{{\"cookie\":null,\"do\":\"open\",\"is\":\"ok\",\"set\":[],\"site\":\"https://s{tab}.test\"}}"
        )?,
    )?;
    lines.add(
        &format!(in alloc; "{{\"do\":\"set\",\"tab\":{tab},\"key\":\"k\",\"value\":\"{tab}\"}}")?,
        &format!(in alloc; "{{\"do\":\"set\",\"is\":\"ok\",\"site\":\"https://s{tab}.test\"}}")?,
    )
}

fn add_frame(alloc: Global, lines: &mut Lines, frame: u32) -> Result<(), Fail> {
    lines.add(
        &format!(in alloc;
            "{{\"do\":\"frame\",\"tab\":1,\"frame\":{frame},\"url\":\"https://w{frame}.test/\"}}"
        )?,
        "{\"cookie\":null,\"do\":\"frame\",\"is\":\"ok\",\"set\":[],\"site\":\"https://s1.test\"}",
    )
}

fn add_pair(alloc: Global, lines: &mut Lines, area: &str, pair: u32) -> Result<(), Fail> {
    lines.add(
        &format!(in alloc;
            "{{\"do\":\"set\",\"tab\":2,\"area\":\"{area}\",\"key\":\"k{pair}\",\"value\":\"v\"}}"
        )?,
        "{\"do\":\"set\",\"is\":\"ok\",\"site\":\"https://s2.test\"}",
    )
}

fn many_lines(alloc: Global) -> Result<Lines, Fail> {
    let mut lines = Lines::new(alloc);
    for tab in 1..TABS + 1 {
        add_tab(alloc, &mut lines, tab)?;
    }
    for frame in 1..FRAMES + 1 {
        add_frame(alloc, &mut lines, frame)?;
    }
    for pair in 0..PAIRS {
        add_pair(alloc, &mut lines, "local", pair)?;
        add_pair(alloc, &mut lines, "session", pair)?;
    }
    lines.add(
        "{\"do\":\"len\",\"tab\":2}",
        "{\"do\":\"len\",\"is\":\"ok\",\"site\":\"https://s2.test\",\"value\":2001}",
    )?;
    lines.add(
        "{\"do\":\"get\",\"tab\":3000,\"key\":\"k\"}",
        "{\"do\":\"get\",\"is\":\"ok\",\"site\":\"https://s3000.test\",\"value\":\"3000\"}",
    )?;
    Ok(lines)
}

// Whether all replies are there, or a part of them where the second write fails.
fn are_written(alloc: Global, lines: &Lines, fails: &Fails, status: u8) -> Result<bool, Fail> {
    let ended = run_texts(alloc, REPLAY, ("", &lines.script), 1_000_000, fails)?;
    let written = ended.out.bytes();
    let whole = written.len() == lines.replies.len();
    Ok(
        ended.status == status
            && lines.replies.as_bytes().starts_with(written)
            && whole == (status == 0)
            && written.len() >= 65_536,
    )
}

const SECOND_WRITE: Fails = Fails {
    out: &[2],
    ..NO_FAILS
};

#[test]
fn a_run_of_many_lines_is_written_in_parts(rt: HostRuntime) -> Result<(), Fail> {
    let alloc = rt.alloc();
    let lines = many_lines(alloc)?;
    assert!(rt; are_written(alloc, &lines, &NO_FAILS, 0)?);
    assert!(rt; are_written(alloc, &lines, &SECOND_WRITE, 7)?);
    Ok(())
}
