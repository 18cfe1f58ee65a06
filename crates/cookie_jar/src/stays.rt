//! Which cells of cookies a list has.
ghost use Rattle.std.specs.Prelude.{◌≡◌, map};
ghost use Rattle.std.specs.List.{list_all};
ghost use Rattle.cookie_jar.specs.Key.{plain_key};
ghost use Rattle.cookie_jar.specs.Plain.{plain_cookie};
ghost use Rattle.cookie_jar.specs.Stays as spec;

use crate::cookie::Cookie;
use crate::{CellKey, Jar};
use origin_site::{domain_under, is_own_host};
use suffix_list::SuffixList;

/// The domain of a cell.
pub fn domain_of_cell(cell: &CellKey) -> &str
    ensures domain { result.now ≡ spec.domain_of_cell (plain_key cell.now) }
{
    match cell {
        CellKey::Own { domain } => domain.as_str(),
        CellKey::Partition { domain, .. } => domain.as_str(),
    }
}

impl CellKey {
    /// Whether the domain of the cell is its own domain under a list, and the top-level site of a
    /// partition is a site there. Takes no memory.
    pub fn name_stays(&self, list: &SuffixList) -> bool
        ensures stays { result ≡ spec.name_stays list.now.rules (plain_key self.now) }
    {
        match self {
            CellKey::Own { domain } => is_own_host(domain.as_str(), list),
            CellKey::Partition { top, domain, .. } => {
                is_own_host(top.host.as_str(), list) && is_own_host(domain.as_str(), list)
            }
        }
    }
}

impl Jar {
    /// Whether these are the cookies of a cell under a list: the name of the cell is one there,
    /// and the cell's domain is that of each cookie. Takes no memory.
    pub fn stays(&self, cell: &CellKey, list: &SuffixList) -> bool
        ensures stays { result
            ≡ spec.cell_stays list.now.rules (plain_key cell.now) self.now.cookies }
    {
        cell.name_stays(list) && have_domain(self.cookies.as_slice(), domain_of_cell(cell), list)
    }
}

// Whether a domain is that of each cookie under a list.
fn have_domain(cookies: &[Cookie], domain: &str, list: &SuffixList) -> bool
    ensures { result
        ≡ list_all (spec.cookie_stays list.now.rules domain.now) (map plain_cookie cookies.now) }
{
    cookies
        .iter()
        .all(|cookie| cookie_stays(cookie, domain, list))
}

fn cookie_stays(cookie: &Cookie, domain: &str, list: &SuffixList) -> bool
    ensures { result ≡ spec.cookie_stays list.now.rules domain.now (plain_cookie cookie.now) }
{
    domain_under(cookie.identity.domain.as_str(), list) == domain
}
