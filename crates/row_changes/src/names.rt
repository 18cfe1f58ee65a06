//! Fields that are names: origins, sites, domains, keys and cells.
ghost use Rattle.std.specs.Prelude.{◌≡◌, IfOk, bytes_eq, string_bytes};
ghost use Rattle.std.specs.Result.{result_ok};
ghost use Rattle.origin_site.specs.Origin.{origin_text};
ghost use Rattle.origin_site.specs.Plain.{plain_address, plain_origin, plain_site};
ghost use Rattle.origin_site.specs.Site.{site_of_text, site_text};
ghost use Rattle.storage_key.specs.Plain.{plain_key};
ghost use Rattle.cookie_jar.specs.Key.{plain_key as plain_cell};
ghost use Rattle.row_changes.specs.Names as spec;
ghost use Rattle.row_changes.specs.Reading as reading;
ghost use Rattle.row_changes.specs.Stops.{Gives};

use crate::fields::{bit_at, byte_at, text_at};
use crate::hosts::{has_default_port, is_host_text, own_host};
use crate::stop::Stop;
use agent_base::NoMemory;
use cookie_jar::CellKey;
use origin_site::{Address, AddressFault, Origin, Site, SiteFault};
use std::alloc::{AllocError, Global};
use storage_key::StorageKey;

const ORIGIN_LIMIT: usize = 8_192;

// Whether a text is an origin's.
#[tactic(auto, using(crate::proofs::HostLemmas::default_text))]
fn is_origin_text(alloc: Global, origin: &Origin, text: &str) -> Result<bool, NoMemory>
    ensures { IfOk result
        (λ is. is ≡ bytes_eq (origin_text (plain_origin origin.now)) text.now) }
{
    if has_default_port(origin) {
        return Ok(is_host_text(origin.https, origin.host.as_str(), text));
    }
    let own = origin.text(alloc)?;
    Ok(own.as_str() == text)
}

// The origin of an address, where a text is the origin's.
fn own_origin(alloc: Global, text: &str, address: &Address) -> Result<Origin, Stop>
    ensures { Gives plain_origin (spec.own_origin text.now (plain_address address.now)) result }
{
    let origin = address.origin(alloc)?;
    if is_origin_text(alloc, &origin, text)? && text.len() <= ORIGIN_LIMIT {
        Ok(origin)
    } else {
        Err(Stop::NoField)
    }
}

// The origin that a text is.
fn origin_of(alloc: Global, text: &str) -> Result<Origin, Stop>
    ensures { Gives plain_origin (spec.origin_of_text text.now) result }
{
    match Address::read(alloc, text) {
        Ok(address) => own_origin(alloc, text, &address),
        Err(AddressFault::NoMemory) => Err(Stop::NoMemory),
        Err(_) => Err(Stop::NoField),
    }
}

// The site that a text is.
fn site_of(alloc: Global, text: &str) -> Result<Site, Stop>
    ensures { Gives plain_site (result_ok (site_of_text text.now)) result }
{
    match Site::read(alloc, text) {
        Ok(site) => Ok(site),
        Err(SiteFault::NotSite) => Err(Stop::NoField),
        Err(SiteFault::NoMemory) => Err(Stop::NoMemory),
    }
}

// The site that a text is, where an origin is at hand: one of a label suffix of its host is not
// parsed.
fn site_beside(alloc: Global, text: &str, origin: &Origin) -> Result<Site, Stop>
    ensures { Gives plain_site (result_ok (site_of_text text.now)) result }
{
    match own_host(text, origin) {
        Some(host) => Ok(Site {
            https: origin.https,
            host: String::from_str(alloc, host)?,
        }),
        None => site_of(alloc, text),
    }
}

// `scheme://host`
fn site_text(alloc: Global, https: bool, host: &str) -> Result<String, AllocError>
    ensures { IfOk result
        (λ t. string_bytes t ≡ site_text (record { https = https; host = host.now })) }
{
    let scheme = if https { "https" } else { "http" };
    format!(in alloc; "{scheme}://{host}")
}

// Whether a text is a host of this scheme.
fn is_host_by(alloc: Global, https: bool, host: &str) -> Result<bool, NoMemory>
    ensures { IfOk result (λ is. is ≡ spec.is_host_by https host.now) }
{
    let text = site_text(alloc, https, host)?;
    match Site::read(alloc, text.as_str()) {
        Ok(_) => Ok(true),
        Err(SiteFault::NotSite) => Ok(false),
        Err(SiteFault::NoMemory) => Err(NoMemory),
    }
}

/// Whether a text is the host of an http or an https address.
pub fn is_host(alloc: Global, host: &str) -> Result<bool, NoMemory>
    ensures { IfOk result (λ is. is ≡ spec.is_host host.now) }
{
    if is_host_by(alloc, true, host)? {
        return Ok(true);
    }
    is_host_by(alloc, false, host)
}

#[tactic(auto, unfolding(crate::specs::Reading::origin_at))]
fn origin_at(alloc: Global, bytes: &mut &[u8]) -> Result<Origin, Stop>
    ensures { Gives (λ origin. (plain_origin origin, bytes.new.now))
        (reading.origin_at bytes.old.now) result }
{
    origin_of(alloc, text_at(bytes)?)
}

#[tactic(auto, unfolding(crate::specs::Reading::site_at))]
pub fn site_at(alloc: Global, bytes: &mut &[u8]) -> Result<Site, Stop>
    ensures { Gives (λ site. (plain_site site, bytes.new.now))
        (reading.site_at bytes.old.now) result }
{
    site_of(alloc, text_at(bytes)?)
}

#[tactic(auto, unfolding(crate::specs::Reading::domain_at))]
fn domain_at(alloc: Global, bytes: &mut &[u8]) -> Result<String, Stop>
    ensures { Gives (λ domain. (string_bytes domain, bytes.new.now))
        (reading.domain_at bytes.old.now) result }
{
    let domain = text_at(bytes)?;
    if !is_host(alloc, domain)? {
        return Err(Stop::NoField);
    }
    Ok(String::from_str(alloc, domain)?)
}

// The top-level site of a key of this origin.
#[tactic(auto, unfolding(crate::specs::Reading::site_at))]
fn top_at(alloc: Global, bytes: &mut &[u8], origin: &Origin) -> Result<Site, Stop>
    ensures { Gives (λ site. (plain_site site, bytes.new.now))
        (reading.site_at bytes.old.now) result }
{
    site_beside(alloc, text_at(bytes)?, origin)
}

/// The key at the front of bytes. The text of a top-level site that is one of its origin's own host
/// is not parsed.
#[tactic(auto, unfolding(crate::specs::Reading::key_at))]
pub fn key_at(alloc: Global, bytes: &mut &[u8]) -> Result<StorageKey, Stop>
    ensures { Gives (λ key. (plain_key key, bytes.new.now))
        (reading.key_at bytes.old.now) result }
{
    let origin = origin_at(alloc, bytes)?;
    let top = top_at(alloc, bytes, &origin)?;
    let bit = bit_at(bytes)?;
    Ok(StorageKey { top, origin, bit })
}

#[tactic(auto, unfolding(crate::specs::Reading::cell_at))]
pub fn cell_at(alloc: Global, bytes: &mut &[u8]) -> Result<CellKey, Stop>
    ensures { Gives (λ cell. (plain_cell cell, bytes.new.now))
        (reading.cell_at bytes.old.now) result }
{
    match byte_at(bytes)? {
        0 => Ok(CellKey::Own {
            domain: domain_at(alloc, bytes)?,
        }),
        1 => Ok(CellKey::Partition {
            top: site_at(alloc, bytes)?,
            bit: bit_at(bytes)?,
            domain: domain_at(alloc, bytes)?,
        }),
        _ => Err(Stop::NoField),
    }
}
