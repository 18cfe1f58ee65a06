//! The keys of the cells that a use has.
ghost use Rattle.std.specs.Prelude.{◌≡◌, IfOk, IsSome, IsTrue, Some, option_map};
ghost use Rattle.std.specs.Rc.{rc_value};
ghost use Rattle.cookie_jar.specs.Key.{plain_key};
ghost use Rattle.agent_model.specs.CookieUse.{uses_own};
ghost use Rattle.web_cookies.specs.CellsOfUse as spec;
ghost use Rattle.web_cookies.specs.Uses.{plain_use};

use crate::cookie_use::CookieUse;
use crate::line_input::LineInput;
use agent_base::NoMemory;
use cookie_jar::CellKey;
use origin_site::{domain_of, same_site};
use std::alloc::Global;
use std::rc::Rc;

/// The keys of the cells of a use. There is an unpartitioned one for a first party and where access
/// is granted.
#[derive(Debug, Drop)]
pub struct UseKeys {
    pub own: Option<CellKey>,
    pub partition: CellKey,
}

impl UseKeys {
    /// The key of the unpartitioned cell of a use that has one.
    pub fn own_cell(&self) -> &CellKey
        requires own { IsSome (option_map plain_key self.now.own) }
        ensures cell { Some (plain_key result.now) ≡ option_map plain_key self.now.own }
    {
        match &self.own {
            Some(key) => key,
            None => unreachable!(),
        }
    }
}

/// The keys of a use: those of an earlier use where they are the same, and else keys over memory
/// of their own.
pub fn keys_of(
    input: &LineInput<'_>,
    how: &CookieUse<'_>,
    earlier: &Option<Rc<UseKeys>>,
) -> Result<Rc<UseKeys>, NoMemory>
    ensures keys { IfOk result (λ keys. spec.AreKeysOf input.now.list.now.rules (plain_use how.now)
        (rc_value keys)) }
{
    let domain = domain_of(how.url.host.as_str(), how.url.ip, input.list);
    match earlier {
        Some(keys) if are_keys(keys, how, domain) => Ok(keys.clone()?),
        _ => new_keys(input.alloc, how, domain),
    }
}

// Whether these are the keys of a use of a URL of this domain.
fn are_keys(keys: &UseKeys, how: &CookieUse<'_>, domain: &str) -> bool
    ensures own { IsTrue result → option_map plain_key keys.now.own
        ≡ spec.own_key_at domain.now (plain_use how.now) }
    ensures partition { IsTrue result → plain_key keys.now.partition
        ≡ spec.partition_key_at domain.now (plain_use how.now) }
{
    is_own_key(&keys.own, how, domain) && is_partition_key(&keys.partition, how, domain)
}

fn is_own_key(key: &Option<CellKey>, how: &CookieUse<'_>, domain: &str) -> bool
    ensures { IsTrue result → option_map plain_key key.now
        ≡ spec.own_key_at domain.now (plain_use how.now) }
{
    match key {
        Some(CellKey::Own { domain: own }) => uses_own(how) && own.as_str() == domain,
        Some(CellKey::Partition { .. }) => false,
        None => !uses_own(how),
    }
}

fn is_partition_key(key: &CellKey, how: &CookieUse<'_>, domain: &str) -> bool
    ensures { IsTrue result → plain_key key.now
        ≡ spec.partition_key_at domain.now (plain_use how.now) }
{
    match key {
        CellKey::Own { .. } => false,
        CellKey::Partition {
            top,
            bit,
            domain: own,
        } => same_site(top, how.top) && *bit == how.context.bit && own.as_str() == domain,
    }
}

// Whether a use has an unpartitioned cell.
fn uses_own(how: &CookieUse<'_>) -> bool
    ensures { result ≡ uses_own (plain_use how.now) }
{
    how.context.first || how.granted
}

fn new_keys(alloc: Global, how: &CookieUse<'_>, domain: &str) -> Result<Rc<UseKeys>, NoMemory>
    ensures own { IfOk result (λ keys. option_map plain_key (rc_value keys).own
        ≡ spec.own_key_at domain.now (plain_use how.now)) }
    ensures partition { IfOk result (λ keys. plain_key (rc_value keys).partition
        ≡ spec.partition_key_at domain.now (plain_use how.now)) }
{
    let keys = UseKeys {
        own: own_key(alloc, how, domain)?,
        partition: CellKey::Partition {
            top: how.top.copy(alloc)?,
            bit: how.context.bit,
            domain: String::from_str(alloc, domain)?,
        },
    };
    match Rc::new(alloc, keys) {
        Ok(keys) => Ok(keys),
        Err(_) => Err(NoMemory),
    }
}

fn own_key(alloc: Global, how: &CookieUse<'_>, domain: &str) -> Result<Option<CellKey>, NoMemory>
    ensures { IfOk result (λ key. option_map plain_key key
        ≡ spec.own_key_at domain.now (plain_use how.now)) }
{
    if !uses_own(how) {
        return Ok(None);
    }
    let domain = String::from_str(alloc, domain)?;
    Ok(Some(CellKey::Own { domain }))
}
