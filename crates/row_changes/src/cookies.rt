//! Reading cookies, and the cells that they stand in.
ghost use Rattle.std.specs.Prelude.{◌≡◌, IfOk, string_bytes, true};
ghost use Rattle.std.specs.Rc.{rc_value};
ghost use Rattle.cookie_jar.specs.Key.{plain_key as plain_cell};
ghost use Rattle.cookie_jar.specs.Plain.{plain_cookie};
ghost use Rattle.cookie_jar.specs.Stays.{domain_of_cell};
ghost use Rattle.row_changes.specs.Names.{is_host};
ghost use Rattle.row_changes.specs.Reading as spec;
ghost use Rattle.row_changes.specs.Spelled as spelled;
ghost use Rattle.row_changes.specs.Stops.{Gives};

use crate::fields::{byte_at, signed_at, text_at};
use crate::names::{cell_at, is_host};
use crate::stop::Stop;
use agent_base::NoMemory;
use cookie_jar::{CellKey, Cookie, CookieIdentity, domain_of_cell};
use setcookie_parse::SameSite;
use std::alloc::Global;
use std::rc::Rc;

const PAIR_LIMIT: usize = 4_096;

// The flags of a cookie, as its byte has them.
#[derive(Clone, Copy, Debug)]
struct Flags {
    host_only: bool,
    secure: bool,
    http_only: bool,
}

#[tactic(auto, unfolding(crate::specs::Reading::flags_at))]
fn flags_at(bytes: &mut &[u8]) -> Result<Flags, Stop>
    ensures { Gives (λ x. (((x.host_only, x.secure), x.http_only), bytes.new.now))
        (spec.flags_at bytes.old.now) result }
{
    let byte = byte_at(bytes)?;
    if byte >= 8 {
        return Err(Stop::NoField);
    }
    Ok(Flags {
        host_only: byte % 2 == 1,
        secure: byte / 2 % 2 == 1,
        http_only: byte / 4 == 1,
    })
}

#[tactic(auto, unfolding(crate::specs::Reading::same_site_at))]
fn same_site_at(bytes: &mut &[u8]) -> Result<SameSite, Stop>
    ensures { Gives (λ x. (x, bytes.new.now)) (spec.same_site_at bytes.old.now) result }
{
    match byte_at(bytes)? {
        0 => Ok(SameSite::Default),
        1 => Ok(SameSite::NoneSent),
        2 => Ok(SameSite::Lax),
        3 => Ok(SameSite::Strict),
        _ => Err(Stop::NoField),
    }
}

// The four texts of a cookie.
#[derive(Clone, Copy, Debug)]
struct Texts<'b> {
    name: &'b str,
    value: &'b str,
    domain: &'b str,
    path: &'b str,
}

#[tactic(auto, unfolding(crate::specs::Reading::texts_at))]
fn texts_at<'b>(bytes: &mut &'b [u8]) -> Result<Texts<'b>, Stop>
    ensures { Gives
        (λ x. ((((x.name.now, x.value.now), x.domain.now), x.path.now), bytes.new.now))
        (spec.texts_at bytes.old.now) result }
{
    Ok(Texts {
        name: text_at(bytes)?,
        value: text_at(bytes)?,
        domain: text_at(bytes)?,
        path: text_at(bytes)?,
    })
}

// What else the bytes of a cookie say.
#[derive(Clone, Copy, Debug)]
struct Marks {
    flags: Flags,
    same_site: SameSite,
    creation: i64,
    expiry: i64,
}

#[tactic(auto, unfolding(crate::specs::Reading::marks_at))]
fn marks_at(bytes: &mut &[u8]) -> Result<Marks, Stop>
    ensures { Gives (λ x. (
      (
        (
          (((x.flags.host_only, x.flags.secure), x.flags.http_only), x.same_site),
          x.creation,
        ),
        x.expiry,
      ),
      bytes.new.now,
    )) (spec.marks_at bytes.old.now) result }
{
    Ok(Marks {
        flags: flags_at(bytes)?,
        same_site: same_site_at(bytes)?,
        creation: signed_at(bytes)?,
        expiry: signed_at(bytes)?,
    })
}

// What is put where copies of a cookie share it.
fn shared<T: Drop>(alloc: Global, own: T) -> Result<Rc<T>, NoMemory>
    ensures { IfOk result (λ rc. rc_value rc ≡ own) }
{
    match Rc::new(alloc, own) {
        Ok(rc) => Ok(rc),
        Err(_) => Err(NoMemory),
    }
}

// The name, domain and path over memory of their own.
fn identity(alloc: Global, texts: &Texts<'_>) -> Result<Rc<CookieIdentity>, NoMemory>
    ensures { IfOk result (λ own. (string_bytes (rc_value own).name ≡ texts.now.name.now)
        × (string_bytes (rc_value own).domain ≡ texts.now.domain.now)
        × (string_bytes (rc_value own).path ≡ texts.now.path.now)) }
{
    let own = CookieIdentity {
        name: String::from_str(alloc, texts.name)?,
        domain: String::from_str(alloc, texts.domain)?,
        path: String::from_str(alloc, texts.path)?,
    };
    shared(alloc, own)
}

#[tactic(auto, unfolding(crate::specs::Reading::cookie_at))]
fn cookie_at(alloc: Global, bytes: &mut &[u8]) -> Result<Cookie, Stop>
    ensures { Gives (λ cookie. (plain_cookie cookie, bytes.new.now))
        (spec.cookie_at bytes.old.now) result }
{
    let texts = texts_at(bytes)?;
    let marks = marks_at(bytes)?;
    Ok(Cookie {
        identity: identity(alloc, &texts)?,
        value: shared(alloc, String::from_str(alloc, texts.value)?)?,
        host_only: marks.flags.host_only,
        secure: marks.flags.secure,
        http_only: marks.flags.http_only,
        same_site: marks.same_site,
        creation: marks.creation,
        expiry: Some(marks.expiry),
        last: 0,
    })
}

fn begins_with_slash(path: &str) -> bool
    ensures { result ≡ spelled.begins_with_slash path.now }
{
    match path.as_bytes() {
        [first, ..] => *first == b'/',
        [] => false,
    }
}

// Whether a cookie may stand in a partition, or outside of one.
fn is_sound(partition: bool, cookie: &Cookie) -> bool
    ensures { result ≡ spelled.is_sound partition (plain_cookie cookie.now) }
{
    let pair = cookie.identity.name.len() + cookie.value.len();
    1 <= pair
        && pair <= PAIR_LIMIT
        && begins_with_slash(cookie.identity.path.as_str())
        && (cookie.secure || !partition)
}

fn is_partition(cell: &CellKey) -> bool
    ensures { result ≡ spelled.is_partition (plain_cell cell.now) }
{
    match cell {
        CellKey::Own { .. } => false,
        CellKey::Partition { .. } => true,
    }
}

// Whether a cookie may stand in this cell, whose domain is a host.
fn suits(alloc: Global, cell: &CellKey, cookie: &Cookie) -> Result<bool, NoMemory>
    requires named { is_host (domain_of_cell (plain_cell cell.now)) ≡ true }
    ensures { IfOk result
        (λ is. is ≡ spelled.suits (plain_cell cell.now) (plain_cookie cookie.now)) }
{
    if !is_sound(is_partition(cell), cookie) {
        return Ok(false);
    }
    let host = cookie.identity.domain.as_str();
    if host == domain_of_cell(cell) {
        return Ok(true);
    }
    is_host(alloc, host)
}

/// A cookie at a place of a cell.
#[derive(Debug, Drop)]
pub struct Placed {
    pub cell: CellKey,
    pub place: u8,
    pub cookie: Cookie,
}

#[tactic(auto, unfolding(crate::specs::Reading::placed_at))]
pub fn placed_at(alloc: Global, bytes: &mut &[u8]) -> Result<Placed, Stop>
    ensures { Gives (λ x. (((plain_cell x.cell, x.place), plain_cookie x.cookie), bytes.new.now))
        (spec.placed_at bytes.old.now) result }
{
    let cell = cell_at(alloc, bytes)?;
    let place = byte_at(bytes)?;
    let cookie = cookie_at(alloc, bytes)?;
    if !suits(alloc, &cell, &cookie)? {
        return Err(Stop::NoField);
    }
    Ok(Placed {
        cell,
        place,
        cookie,
    })
}
