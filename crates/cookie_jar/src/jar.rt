//! One cell of cookies and its edits.
ghost use Rattle.std.specs.Prelude.{◌≡◌, ◌<◌, ◌≤◌, ◌+◌, [], IfOk, IsOk, OnOk, IsTrue, length};
ghost use Rattle.std.specs.Prelude.{map, slice_index_or, slice_set, slice_get, option_map};
ghost use Rattle.std.specs.List.{insert, remove};
ghost use Rattle.cookie_jar.specs.Cookie.{PlainCookie, copies, keeps_limits, same};
ghost use Rattle.cookie_jar.specs.Plain.{plain_cookie};

use crate::cookie::{Cookie, counted};
use agent_base::NoMemory;
use partition_limits::{CellKind, Tally};
use std::alloc::Global;
use std::marker::Model;

/// One cell of cookies, within its limits. No two of its cookies are the same.
#[derive(Debug, Drop)]
pub struct Jar {
    pub(crate) kind: CellKind,
    pub(crate) cookies: Vec<Cookie>,
    pub(crate) tally: Tally,
}

impl Model for Jar {
    ghost use Rattle.std.specs.Prelude.{map, ◌-◌};
    ghost use Rattle.std.specs.Vec.{vec_capacity, vec_len};
    ghost use Rattle.cookie_jar.specs.Cookie.{PlainJar, IsCell};
    ghost use Rattle.cookie_jar.specs.Plain.{plain_cookie};

    ghost Value = { PlainJar };

    ghost view = { λ j. record {
      kind = j.kind;
      cookies = map plain_cookie j.cookies.items;
      spare = vec_capacity j.cookies - vec_len j.cookies;
    } };

    ghost invariant = { λ j. IsCell j.kind j.tally (map plain_cookie j.cookies.items) };
}

impl Jar {
    /// A cell without cookies.
    pub fn new(alloc: Global, kind: CellKind) -> Jar
        ensures kind { result.kind ≡ kind }
        ensures cookies { result.cookies ≡ [] }
    {
        Jar {
            kind,
            cookies: Vec::new(alloc),
            tally: Tally {
                cookies: 0,
                bytes: 0,
            },
        }
    }

    /// The kind of the cell.
    pub fn kind(&self) -> CellKind
        ensures value { result ≡ self.now.kind }
    {
        self.kind
    }

    /// The number of cookies.
    pub fn len(&self) -> usize
        ensures value { result ≡ length self.now.cookies }
        ensures within { IsTrue (keeps_limits self.now.kind self.now.cookies) }
        ensures distinct { (c : PlainCookie) → copies c self.now.cookies ≤ 1 }
    {
        self.cookies.len()
    }

    /// The cookie at a place, and None where the place is not below the length.
    pub fn cookie(&self, place: usize) -> Option<&Cookie>
        ensures value { option_map (λ c. plain_cookie c.now) result
            ≡ slice_get self.now.cookies place }
    {
        self.cookies.get(place)
    }

    /// Makes room for so many more cookies.
    pub fn reserve(&mut self, more: usize) -> Result<(), NoMemory>
        ensures kind { self.new.kind ≡ self.old.kind }
        ensures cookies { self.new.cookies ≡ self.old.cookies }
        ensures room { OnOk result (more ≤ self.new.spare) }
        ensures ready { more ≤ self.old.spare → IsOk result }
    {
        Ok(self.cookies.reserve(more)?)
    }

    /// Puts a cookie before the one at a place, or at the end. Takes no memory.
    pub fn insert_at(&mut self, place: usize, cookie: Cookie)
        requires room { 0 < self.old.spare }
        requires place { place ≤ length self.old.cookies }
        requires absent { copies (plain_cookie cookie) self.old.cookies ≡ 0 }
        requires limits { IsTrue (keeps_limits self.old.kind
            (insert self.old.cookies place (plain_cookie cookie))) }
        ensures kind { self.new.kind ≡ self.old.kind }
        ensures cookies { self.new.cookies
            ≡ insert self.old.cookies place (plain_cookie cookie) }
        ensures spare { self.new.spare + 1 ≡ self.old.spare }
    {
        self.tally = Tally {
            cookies: self.tally.cookies + 1,
            bytes: self.tally.bytes + counted(self.kind, &cookie.borrowed()),
        };
        let _ = self.cookies.insert(place, cookie);
    }

    /// Puts a cookie in the place of the same one. Takes no memory.
    pub fn replace_at(&mut self, place: usize, cookie: Cookie)
        requires place { place < length self.old.cookies }
        requires same { IsTrue (same (plain_cookie cookie)
            (slice_index_or self.old.cookies place (plain_cookie cookie))) }
        requires limits { IsTrue (keeps_limits self.old.kind
            (slice_set self.old.cookies place (plain_cookie cookie))) }
        ensures kind { self.new.kind ≡ self.old.kind }
        ensures cookies { self.new.cookies
            ≡ slice_set self.old.cookies place (plain_cookie cookie) }
        ensures spare { self.new.spare ≡ self.old.spare }
    {
        let new = counted(self.kind, &cookie.borrowed());
        let old = counted(self.kind, &self.cookies[place].borrowed());
        self.tally = Tally {
            cookies: self.tally.cookies,
            bytes: self.tally.bytes - old + new,
        };
        self.cookies[place] = cookie;
    }

    /// Removes the cookie at a place.
    pub fn remove_at(&mut self, place: usize)
        requires place { place < length self.old.cookies }
        ensures kind { self.new.kind ≡ self.old.kind }
        ensures cookies { self.new.cookies ≡ remove self.old.cookies place }
        ensures spare { self.new.spare ≡ self.old.spare + 1 }
    {
        let gone = self.cookies.remove(place);
        self.tally = Tally {
            cookies: self.tally.cookies - 1,
            bytes: self.tally.bytes - counted(self.kind, &gone.borrowed()),
        };
    }

    /// The same cell. Its cookies share the texts.
    pub fn copy(&self, alloc: Global) -> Result<Jar, NoMemory>
        ensures kind { IfOk result (λ j. j.kind ≡ self.now.kind) }
        ensures cookies { IfOk result (λ j. j.cookies ≡ self.now.cookies) }
    {
        Ok(Jar {
            kind: self.kind,
            cookies: copies_of(alloc, &self.cookies)?,
            tally: self.tally,
        })
    }
}

// Copies of cookies, with room for one more. Where there are none, no memory is taken.
fn copies_of(alloc: Global, cookies: &[Cookie]) -> Result<Vec<Cookie>, NoMemory>
    ensures { IfOk result (λ v. map plain_cookie v.items ≡ map plain_cookie cookies.now) }
{
    if cookies.is_empty() {
        return Ok(Vec::new(alloc));
    }
    let mut copies = Vec::with_capacity(alloc, cookies.len().saturating_add(1))?;
    for cookie in cookies {
        let Ok(()) = copies.push(cookie.copy()?) else {
            return Err(NoMemory);
        };
    }
    Ok(copies)
}
