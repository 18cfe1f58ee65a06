//! Cookies, with texts of their own and borrowed ones.
ghost use Rattle.std.specs.Prelude.{◌≡◌, ◌≤◌, IfOk, IfSome, IsTrue, bytes_eq, map, option_map};
ghost use Rattle.std.specs.Prelude.{slice_get, string_bytes};
ghost use Rattle.std.specs.Rc.{rc_value};
ghost use Rattle.cookie_jar.specs.Cookie as spec;
ghost use Rattle.cookie_jar.specs.Borrowed.{plain_borrowed};
ghost use Rattle.cookie_jar.specs.Lifetime as spec_of;
ghost use Rattle.cookie_jar.specs.Plain.{plain_cookie};

use agent_base::NoMemory;
use partition_limits::CellKind;
use setcookie_parse::SameSite;
use std::alloc::Global;
use std::rc::Rc;

/// A cookie that is kept. Times are seconds from 1970 on.
///
/// A copy shares the texts, so that they stand in memory once, and a cookie that is put in the
/// place of the same one shares all of them but the value.
#[derive(Debug, Drop)]
pub struct Cookie {
    pub identity: Rc<CookieIdentity>,
    pub value: Rc<String>,
    /// Whether the cookie goes to its domain alone, and not to hosts below it.
    pub host_only: bool,
    pub secure: bool,
    pub http_only: bool,
    pub same_site: SameSite,
    pub creation: i64,
    /// The second from which on the cookie is expired, and `None` for a session cookie.
    pub expiry: Option<i64>,
    /// The second of the storing or of the last sending.
    pub last: i64,
}

/// The texts that tell a cookie from others, beside `host_only`.
#[derive(Debug, Drop)]
pub struct CookieIdentity {
    pub name: String,
    pub domain: String,
    pub path: String,
}

/// A cookie whose texts are borrowed.
#[derive(Debug, Clone, Copy, Drop)]
pub struct BorrowedCookie<'a> {
    pub name: &'a str,
    pub value: &'a str,
    pub domain: &'a str,
    pub path: &'a str,
    pub host_only: bool,
    pub secure: bool,
    pub http_only: bool,
    pub same_site: SameSite,
    pub creation: i64,
    pub expiry: Option<i64>,
    pub last: i64,
}

impl Cookie {
    /// The same cookie. It shares the texts, and is refused only where a count of them is full.
    pub fn copy(&self) -> Result<Cookie, NoMemory>
        ensures same { IfOk result (λ c. plain_cookie c ≡ plain_cookie self.now) }
    {
        Ok(Cookie {
            identity: self.identity.clone()?,
            value: self.value.clone()?,
            host_only: self.host_only,
            secure: self.secure,
            http_only: self.http_only,
            same_site: self.same_site,
            creation: self.creation,
            expiry: self.expiry,
            last: self.last,
        })
    }

    pub(crate) fn borrowed(&self) -> BorrowedCookie<'_>
        ensures { plain_borrowed result ≡ plain_cookie self.now }
    {
        BorrowedCookie {
            name: self.identity.name.as_str(),
            value: self.value.as_str(),
            domain: self.identity.domain.as_str(),
            path: self.identity.path.as_str(),
            host_only: self.host_only,
            secure: self.secure,
            http_only: self.http_only,
            same_site: self.same_site,
            creation: self.creation,
            expiry: self.expiry,
            last: self.last,
        }
    }
}

impl BorrowedCookie<'_> {
    /// The cookie with a value of its own. It shares the other texts with the same cookie, if there
    /// is one.
    pub(crate) fn to_cookie(&self, alloc: Global, same: Option<&Cookie>) -> Result<Cookie, NoMemory>
        requires same { IfSome (option_map (λ c. plain_cookie c.now) same)
            (λ c. IsTrue (spec.same (plain_borrowed self.now) c)) }
        ensures { IfOk result (λ c. plain_cookie c ≡ plain_borrowed self.now) }
    {
        Ok(Cookie {
            identity: self.identity(alloc, same)?,
            value: shared(alloc, String::from_str(alloc, self.value)?)?,
            host_only: self.host_only,
            secure: self.secure,
            http_only: self.http_only,
            same_site: self.same_site,
            creation: self.creation,
            expiry: self.expiry,
            last: self.last,
        })
    }

    // The identity of the same cookie, if there is one, and else a new one.
    fn identity(&self, alloc: Global, same: Option<&Cookie>) -> Result<Rc<CookieIdentity>, NoMemory>
        requires same { IfSome (option_map (λ c. plain_cookie c.now) same)
            (λ c. IsTrue (spec.same (plain_borrowed self.now) c)) }
        ensures name { IfOk result (λ i. string_bytes (rc_value i).name ≡ self.now.name.now) }
        ensures domain { IfOk result
            (λ i. string_bytes (rc_value i).domain ≡ self.now.domain.now) }
        ensures path { IfOk result (λ i. string_bytes (rc_value i).path ≡ self.now.path.now) }
    {
        match same {
            Some(cookie) => Ok(cookie.identity.clone()?),
            None => self.new_identity(alloc),
        }
    }

    fn new_identity(&self, alloc: Global) -> Result<Rc<CookieIdentity>, NoMemory>
        ensures name { IfOk result (λ i. string_bytes (rc_value i).name ≡ self.now.name.now) }
        ensures domain { IfOk result
            (λ i. string_bytes (rc_value i).domain ≡ self.now.domain.now) }
        ensures path { IfOk result (λ i. string_bytes (rc_value i).path ≡ self.now.path.now) }
    {
        let identity = CookieIdentity {
            name: String::from_str(alloc, self.name)?,
            domain: String::from_str(alloc, self.domain)?,
            path: String::from_str(alloc, self.path)?,
        };
        shared(alloc, identity)
    }
}

fn shared<T: Drop>(alloc: Global, value: T) -> Result<Rc<T>, NoMemory>
    ensures { IfOk result (λ rc. rc_value rc ≡ value) }
{
    match Rc::new(alloc, value) {
        Ok(rc) => Ok(rc),
        Err(_) => Err(NoMemory),
    }
}

pub fn is_same(new: &BorrowedCookie<'_>, cookie: &Cookie) -> bool
    ensures { result ≡ spec.same (plain_borrowed new.now) (plain_cookie cookie.now) }
{
    is_equal(new.name, cookie.identity.name.as_str())
        && is_equal(new.domain, cookie.identity.domain.as_str())
        && new.host_only == cookie.host_only
        && is_equal(new.path, cookie.identity.path.as_str())
}

/// Whether two texts are equal. Names and domains are mostly short, and short texts are compared
/// fastest byte by byte.
pub fn is_equal(a: &str, b: &str) -> bool
    ensures { result ≡ bytes_eq a.now b.now }
{
    if a.len() > 32 {
        return a == b;
    }
    have_equal_bytes(a.as_bytes(), b.as_bytes())
}

fn have_equal_bytes(a: &[u8], b: &[u8]) -> bool
    ensures { result ≡ bytes_eq a.now b.now }
{
    if a.len() != b.len() {
        return false;
    }
    for i in 0..a.len() {
        if a[i] != b[i] {
            return false;
        }
    }
    true
}

pub fn cookie_at(cookies: &[Cookie], place: usize) -> Option<&Cookie>
    ensures { option_map (λ c. plain_cookie c.now) result
        ≡ slice_get (map plain_cookie cookies.now) place }
{
    cookies.get(place)
}

pub fn is_expired(expiry: Option<i64>, now: i64) -> bool
    ensures { result ≡ spec_of.has_passed now expiry }
{
    match expiry {
        None => false,
        Some(expiry) => expiry <= now,
    }
}

/// The bytes that count in a cell.
pub fn counted(kind: CellKind, cookie: &BorrowedCookie<'_>) -> u32
    requires { spec.counted kind (plain_borrowed cookie.now) ≤ 10240 }
    ensures { result ≡ spec.counted kind (plain_borrowed cookie.now) }
{
    match kind {
        CellKind::Own => 0,
        CellKind::Partition => (cookie.name.len() + cookie.value.len()) as u32,
    }
}
