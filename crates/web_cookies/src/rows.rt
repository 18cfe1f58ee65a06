//! Cookies at places of cells: each is put or removed where that is valid.
ghost use Rattle.std.specs.Prelude.{◌≡◌, ◌<◌, ◌≤◌, ◌^◌, ◌==◌, [], IfOk, IfSome, IsOk, MatchOption, OnErr, OnOk};
ghost use Rattle.std.specs.Prelude.{false, is_some, option_map, slice_get, sum_by, true};
ghost use Rattle.std.specs.Prelude.{unwrap_or};
ghost use Rattle.partition_limits.specs.Limits as limits;
ghost use Rattle.cookie_jar.specs.Cookie as spec;
ghost use Rattle.cookie_jar.specs.Key.{plain_key};
ghost use Rattle.cookie_jar.specs.Persistent.{RowInsert, RowRemove, RowReplace, apply_row, row_fits};
ghost use Rattle.cookie_jar.specs.Plain.{plain_cookie};
ghost use Rattle.web_cookies.specs.Cells.{cookies_at, jar_at, kind_of};
ghost use Rattle.web_cookies.specs.Stored.{partitioned_in, shared_in};
ghost use Rattle.web_cookies.specs.Rows.{HasPlace, IsRowDone};

use crate::cookies::Cookies;
use agent_base::NoMemory;
use cookie_jar::{CellKey, Cookie, Jar};
use partition_limits::{CellKind, Tally};
use std::alloc::Global;

impl Cookies {
    /// The jar of a cell. None is one without cookies.
    pub fn jar(&self, cell: &CellKey) -> Option<&Jar>
        ensures cookies { MatchOption result (cookies_at (plain_key cell.now) self.now ≡ [])
            (λ jar. jar.now.cookies ≡ cookies_at (plain_key cell.now) self.now) }
        ensures kind { IfSome result (λ jar. jar.now.kind ≡ kind_of (plain_key cell.now)) }
    {
        self.cells.get(cell)
    }

    /// Makes room for one more cookie in a cell. No cookie changes.
    pub fn reserve_insert(&mut self, alloc: Global, cell: &CellKey) -> Result<(), NoMemory>
        ensures shared { shared_in self.new ≡ shared_in self.old }
        ensures partitioned { partitioned_in self.new ≡ partitioned_in self.old }
        ensures ready { OnOk result (HasPlace (plain_key cell.now) self.new) }
    {
        self.make_room(alloc, cell, kind_of(cell))?;
        let Some(jar) = self.cells.get_mut(cell) else {
            return Err(NoMemory);
        };
        jar.reserve(1)
    }

    /// Puts a cookie before the one at a place of a cell, or at the end, and tells whether that is
    /// valid. Where it is not, no cookie changes.
    ///
    /// Each call goes over the cookies of the cell. Where the cell has room no memory is taken, and
    /// none where it has a jar and the cookie is refused.
    pub fn insert_at(
        &mut self,
        alloc: Global,
        cell: &CellKey,
        place: usize,
        cookie: Cookie,
    ) -> Result<bool, NoMemory>
        ensures done { IfOk result (λ done. IsRowDone (plain_key cell.now)
            (RowInsert place (plain_cookie cookie)) self.old self.new done) }
        ensures shared { OnErr result (shared_in self.new ≡ shared_in self.old) }
        ensures partitioned { OnErr result (partitioned_in self.new ≡ partitioned_in self.old) }
        ensures ready { HasPlace (plain_key cell.now) self.old → IsOk result }
        ensures decided { is_some (jar_at (plain_key cell.now) self.old) ≡ true
            → row_fits (kind_of (plain_key cell.now)) (cookies_at (plain_key cell.now) self.old)
            (RowInsert place (plain_cookie cookie)) ≡ false → IsOk result }
    {
        self.make_room(alloc, cell, kind_of(cell))?;
        let Some(jar) = self.cells.get_mut(cell) else {
            return Err(NoMemory);
        };
        insert_in(jar, place, cookie)
    }

    /// Puts a cookie in the place of the same one, and tells whether that is valid. Where it is
    /// not, no cookie changes.
    ///
    /// Takes no memory. Each call goes over the cookies of the cell.
    pub fn replace_at(&mut self, cell: &CellKey, place: usize, cookie: Cookie) -> bool
        ensures done { IsRowDone (plain_key cell.now) (RowReplace place (plain_cookie cookie))
            self.old self.new result }
    {
        let Some(jar) = self.cells.get_mut(cell) else {
            return false;
        };
        replace_in(jar, place, cookie)
    }

    /// Removes the cookie at a place of a cell, and tells whether there is one.
    pub fn remove_at(&mut self, cell: &CellKey, place: usize) -> bool
        ensures done { IsRowDone (plain_key cell.now) (RowRemove place) self.old self.new result }
    {
        let Some(jar) = self.cells.get_mut(cell) else {
            return false;
        };
        remove_in(jar, place)
    }
}

fn kind_of(cell: &CellKey) -> CellKind
    ensures { result ≡ kind_of (plain_key cell.now) }
{
    match cell {
        CellKey::Own { .. } => CellKind::Own,
        CellKey::Partition { .. } => CellKind::Partition,
    }
}

fn insert_in(jar: &mut Jar, place: usize, cookie: Cookie) -> Result<bool, NoMemory>
    ensures valid { let row = RowInsert place (plain_cookie cookie) in
        IfOk result (λ done. done ≡ row_fits jar.old.kind jar.old.cookies row) }
    ensures cookies { let row = RowInsert place (plain_cookie cookie) in
        OnOk result (jar.new.cookies ≡ apply_row jar.old.kind jar.old.cookies row) }
    ensures unchanged { OnErr result (jar.new.cookies ≡ jar.old.cookies) }
    ensures ready { 0 < jar.old.spare → IsOk result }
    ensures decided { let row = RowInsert place (plain_cookie cookie) in
        row_fits jar.old.kind jar.old.cookies row ≡ false → IsOk result }
    ensures kind { jar.new.kind ≡ jar.old.kind }
{
    if !may_insert(jar, place, &cookie) {
        return Ok(false);
    }
    jar.reserve(1)?;
    jar.insert_at(place, cookie);
    Ok(true)
}

pub fn replace_in(jar: &mut Jar, place: usize, cookie: Cookie) -> bool
    ensures valid { let row = RowReplace place (plain_cookie cookie) in
        result ≡ row_fits jar.old.kind jar.old.cookies row }
    ensures cookies { let row = RowReplace place (plain_cookie cookie) in
        jar.new.cookies ≡ apply_row jar.old.kind jar.old.cookies row }
    ensures kind { jar.new.kind ≡ jar.old.kind }
{
    if !may_replace(jar, place, &cookie) {
        return false;
    }
    jar.replace_at(place, cookie);
    true
}

fn remove_in(jar: &mut Jar, place: usize) -> bool
    ensures valid { result ≡ row_fits jar.old.kind jar.old.cookies (RowRemove place) }
    ensures cookies { jar.new.cookies
        ≡ apply_row jar.old.kind jar.old.cookies (RowRemove place) }
    ensures kind { jar.new.kind ≡ jar.old.kind }
{
    if place >= jar.len() {
        return false;
    }
    jar.remove_at(place);
    true
}

fn may_insert(jar: &Jar, place: usize, cookie: &Cookie) -> bool
    ensures { result ≡ row_fits jar.now.kind jar.now.cookies
        (RowInsert place (plain_cookie cookie.now)) }
{
    if place > jar.len() || !is_absent(jar, cookie) {
        return false;
    }
    let bytes = bytes_of(jar) + counted(jar, cookie);
    fits(jar, jar.len() as u128 + 1, bytes)
}

fn may_replace(jar: &Jar, place: usize, cookie: &Cookie) -> bool
    ensures { result ≡ row_fits jar.now.kind jar.now.cookies
        (RowReplace place (plain_cookie cookie.now)) }
{
    let Some(old) = jar.cookie(place) else {
        return false;
    };
    if !is_same(cookie, old) {
        return false;
    }
    let bytes = bytes_of(jar) - counted(jar, old) + counted(jar, cookie);
    fits(jar, jar.len() as u128, bytes)
}

// Whether no cookie of a jar is the same as this one.
fn is_absent(jar: &Jar, cookie: &Cookie) -> bool
    ensures { result ≡ (spec.copies (plain_cookie cookie.now) jar.now.cookies == 0) }
{
    for place in 0..jar.len() {
        if is_same_at(jar, place, cookie) {
            return false;
        }
    }
    true
}

fn is_same_at(jar: &Jar, place: usize, cookie: &Cookie) -> bool
    ensures { let at = slice_get jar.now.cookies place in
        result ≡ unwrap_or (option_map (spec.same (plain_cookie cookie.now)) at) false }
{
    match jar.cookie(place) {
        Some(other) => is_same(cookie, other),
        None => false,
    }
}

fn is_same(cookie: &Cookie, other: &Cookie) -> bool
    ensures { result ≡ spec.same (plain_cookie cookie.now) (plain_cookie other.now) }
{
    cookie.identity.name == other.identity.name
        && cookie.identity.domain == other.identity.domain
        && cookie.host_only == other.host_only
        && cookie.identity.path == other.identity.path
}

// The bytes that count in a jar.
fn bytes_of(jar: &Jar) -> u128
    ensures value { result ≡ sum_by (spec.counted jar.now.kind) jar.now.cookies }
    ensures small { result ≤ limits.byte_limit }
{
    let mut bytes = 0;
    for place in 0..jar.len() {
        bytes += counted_at(jar, place);
    }
    bytes
}

fn counted_at(jar: &Jar, place: usize) -> u128
    ensures { let at = slice_get jar.now.cookies place in
        result ≡ unwrap_or (option_map (spec.counted jar.now.kind) at) 0 }
{
    match jar.cookie(place) {
        Some(cookie) => counted(jar, cookie),
        None => 0,
    }
}

// The bytes of a cookie that count in a jar.
fn counted(jar: &Jar, cookie: &Cookie) -> u128
    ensures value { result ≡ spec.counted jar.now.kind (plain_cookie cookie.now) }
    ensures small { result < 2 ^ 65 }
{
    match jar.kind() {
        CellKind::Own => 0,
        CellKind::Partition => cookie.identity.name.len() as u128 + cookie.value.len() as u128,
    }
}

// Whether a jar may hold so many cookies of so many bytes. A number that a tally has no room for is
// above each limit, and so is the last one that it has room for.
fn fits(jar: &Jar, cookies: u128, bytes: u128) -> bool
    ensures { result ≡ limits.fits jar.now.kind cookies bytes }
{
    let tally = Tally {
        cookies: u32::try_from(cookies).unwrap_or(u32::MAX),
        bytes: u32::try_from(bytes).unwrap_or(u32::MAX),
    };
    tally.fits(jar.kind())
}
