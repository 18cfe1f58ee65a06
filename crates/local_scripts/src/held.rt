//! The unpartitioned cookies of a domain, and those that an entry holds.
ghost use Rattle.std.specs.Prelude.{◌≡◌, IfOk, map, option_to_list, string_bytes};
ghost use Rattle.unwinding.specs.FiniteCells.{get_cell};
ghost use Rattle.origin_site.specs.Plain.{plain_site};
ghost use Rattle.agent_model.specs.CookieCells.{domain_order};
ghost use Rattle.web_cookies.specs.Stored.{shared_in};
ghost use Rattle.local_scripts.specs.EntryParts.{IsHeld};

use crate::HeldJar;
use agent_base::NoMemory;
use cookie_jar::{CellKey, Jar};
use origin_site::Site;
use partition_limits::CellKind;
use std::alloc::Global;
use web_cookies::Cookies;

/// The cookies of a consulted domain, where the site may not know them: those of another domain,
/// and those of its own where an event of another site has left them different.
pub fn held_jar(
    alloc: Global,
    cookies: &Cookies,
    site: &Site,
    touched: bool,
    domain: &Option<String>,
) -> Result<Option<HeldJar>, NoMemory>
    ensures held { let domains = map string_bytes (option_to_list domain.now) in
        IfOk result (IsHeld (plain_site site.now) cookies.now touched domains) }
{
    let Some(domain) = domain else {
        return Ok(None);
    };
    if domain.as_str() == site.host.as_str() && !touched {
        return Ok(None);
    }
    Ok(Some(HeldJar {
        domain: String::from_str(alloc, domain.as_str())?,
        jar: domain_cookies(alloc, cookies, domain.as_str())?,
    }))
}

/// A copy of the unpartitioned cookies of a domain, which may be none.
pub fn domain_cookies(alloc: Global, cookies: &Cookies, domain: &str) -> Result<Jar, NoMemory>
    ensures cookies { let all = get_cell domain_order (shared_in cookies.now) domain.now in
        IfOk result (λ jar. jar.cookies ≡ all) }
{
    let cell = CellKey::Own {
        domain: String::from_str(alloc, domain)?,
    };
    match cookies.jar(&cell) {
        Some(jar) => jar.copy(alloc),
        None => Ok(Jar::new(alloc, CellKind::Own)),
    }
}
