//! The row changes of cookies, cell by cell.
ghost use Rattle.std.specs.Prelude.{◌≡◌, ◌+◌, IfOk, OnOk, drop, filter, length, map, take};
ghost use Rattle.cookie_jar.specs.Key.{plain_key as plain_cell};
ghost use Rattle.row_store.specs.Listing.{cookie_rows};
ghost use Rattle.row_store.specs.Pushed.{cell_rows_in, cookie_rows_in, is_chosen, rows_of_cells};

use crate::cell_texts::by_text;
use crate::sink::RowSink;
use crate::which::Which;
use agent_base::NoMemory;
use cookie_jar::{CellKey, Jar};
use partition_limits::CellKind;
use row_changes::ChangeRef;
use std::alloc::Global;
use web_cookies::Cookies;

/// Adds these cookies of each cell: of unpartitioned ones by domain, and of partitioned ones by
/// their texts.
pub fn push_cookies<S: RowSink>(
    alloc: Global,
    cookies: &Cookies,
    which: Which,
    sink: &mut S,
) -> Result<(), NoMemory>
    ensures pushed { OnOk result (S.adds sink.old (cookie_rows_in which cookies.now) sink.new) }
{
    let own = cookies.cells(alloc, CellKind::Own)?;
    let partitioned = by_text(alloc, cookies.cells(alloc, CellKind::Partition)?)?;
    push_cells(cookies, &own, which, sink)?;
    push_cells(cookies, &partitioned, which, sink)
}

fn push_cells<S: RowSink>(
    cookies: &Cookies,
    cells: &[CellKey],
    which: Which,
    sink: &mut S,
) -> Result<(), NoMemory>
    ensures pushed { let more = rows_of_cells which cookies.now (map plain_cell cells.now) in
        OnOk result (S.adds sink.old more sink.new) }
{
    for cell in cells {
        push_cell(cookies, cell, which, sink)?;
    }
    Ok(())
}

// Adds the cookies of a cell.
fn push_cell<S: RowSink>(
    cookies: &Cookies,
    cell: &CellKey,
    which: Which,
    sink: &mut S,
) -> Result<(), NoMemory>
    ensures pushed { let more = cell_rows_in which cookies.now (plain_cell cell.now) in
        OnOk result (S.adds sink.old more sink.new) }
{
    match cookies.jar(cell) {
        Some(jar) => push_jar(cell, jar, which, sink),
        None => Ok(()),
    }
}

// Adds the cookies of a jar, each at its place among those that are added.
fn push_jar<S: RowSink>(
    cell: &CellKey,
    jar: &Jar,
    which: Which,
    sink: &mut S,
) -> Result<(), NoMemory>
    ensures pushed { let these = filter (is_chosen which) jar.now.cookies in
        OnOk result (S.adds sink.old (cookie_rows (plain_cell cell.now) 0 these) sink.new) }
{
    let mut place = 0;
    for index in 0..jar.len() {
        place = push_cookie(cell, jar, index, place, which, sink)?;
    }
    Ok(())
}

// Adds the cookie at an index, if it is one of these, and answers the place of the next one. No
// cell has as many as 256.
fn push_cookie<S: RowSink>(
    cell: &CellKey,
    jar: &Jar,
    index: usize,
    place: u8,
    which: Which,
    sink: &mut S,
) -> Result<u8, NoMemory>
    ensures next { let here = filter (is_chosen which) (take 1 (drop index jar.now.cookies)) in
        IfOk result (λ next. next ≡ place + length here) }
    ensures pushed { let here = filter (is_chosen which) (take 1 (drop index jar.now.cookies)) in
        OnOk result (S.adds sink.old (cookie_rows (plain_cell cell.now) place here) sink.new) }
{
    let Some(cookie) = jar.cookie(index) else {
        return Ok(place);
    };
    if !which.has(cookie) {
        return Ok(place);
    }
    let Some(next) = place.checked_add(1) else {
        return Err(NoMemory);
    };
    sink.add(ChangeRef::CookieInsert {
        cell,
        place,
        cookie,
    })?;
    Ok(next)
}
