//! Storage keys.
ghost use Rattle.std.specs.Prelude.{◌≡◌, ◌↔◌, IfOk, IsNone, IsTrue, None, Ok, is_some, map, true};
ghost use Rattle.std.specs.Prelude.{option_copied, option_map};
ghost use Rattle.origin_site.specs.Plain.{plain_origin};
ghost use Rattle.storage_key.specs.Context.{top_of};
ghost use Rattle.storage_key.specs.Key.{key_order, own_bit, storage_key};
ghost use Rattle.storage_key.specs.Plain.{plain_chain_site, plain_key};

use crate::Context;
use agent_base::NoMemory;
use origin_site::{Origin, Site, same_origin, same_site};
use std::alloc::{AllocError, Global};
use std::cmp::Ordering;

/// What storage is kept under: the top-level site above a document, its origin, and the ancestor
/// bit of its own context. Keys are ordered in this order, so those under a site are a range.
#[derive(Debug, Drop, PartialEq, Eq, PartialOrd, Ord, Hash)]
pub struct StorageKey {
    pub top: Site,
    pub origin: Origin,
    pub bit: bool,
}

impl StorageKey {
    /// The same key, over memory of its own.
    pub fn copy(&self, alloc: Global) -> Result<StorageKey, NoMemory>
        ensures same { IfOk result (λ key. plain_key key ≡ plain_key self.now) }
    {
        Ok(StorageKey {
            top: self.top.copy(alloc)?,
            origin: self.origin.copy(alloc)?,
            bit: self.bit,
        })
    }
}

impl Clone for StorageKey {
    ghost use Rattle.std.specs.Prelude.{◌≡◌};
    ghost use Rattle.storage_key.specs.Plain.{plain_key};

    ghost is_clone = { λ key clone. plain_key clone ≡ plain_key key };

    fn clone(&self) -> Result<StorageKey, AllocError> {
        Ok(StorageKey {
            top: Site {
                https: self.top.https,
                host: self.top.host.clone()?,
            },
            origin: Origin {
                https: self.origin.https,
                ip: self.origin.ip,
                host: self.origin.host.clone()?,
                port: self.origin.port,
            },
            bit: self.bit,
        })
    }
}

/// The storage key of a document, from the sites of its chain and its origin. None is an opaque
/// origin, and such a document has no key.
///
/// The chain begins with the top, which has a site, and ends with the document's own site.
pub fn key_of(
    alloc: Global,
    chain: &[Option<Site>],
    origin: Option<&Origin>,
) -> Result<Option<StorageKey>, NoMemory>
    requires { is_some (top_of (map plain_chain_site chain.now)) ≡ true }
    ensures key { IfOk result (λ key. option_map plain_key key
        ≡ storage_key (map plain_chain_site chain.now)
        (option_map plain_origin (option_copied origin.entry))) }
    ensures none { IfOk result (λ key. IsNone key ↔ IsNone origin.entry) }
    ensures opaque { origin.entry ≡ None → result ≡ Ok None }
{
    let Some(origin) = origin else {
        return Ok(None);
    };
    match chain {
        [Some(top), ..] => Ok(Some(StorageKey {
            top: top.copy(alloc)?,
            origin: origin.copy(alloc)?,
            bit: own_bit(chain),
        })),
        _ => Ok(None),
    }
}

// The ancestor bit of the document that a chain ends with.
fn own_bit(chain: &[Option<Site>]) -> bool
    ensures { result ≡ own_bit (map plain_chain_site chain.now) }
{
    match chain {
        [.., Some(own)] => Context::of(chain, own).bit,
        _ => true,
    }
}

/// Whether two keys are the same.
pub fn same_key(a: &StorageKey, b: &StorageKey) -> bool
    ensures same { IsTrue result ↔ (plain_key a.now ≡ plain_key b.now) }
{
    same_site(&a.top, &b.top) && same_origin(&a.origin, &b.origin) && a.bit == b.bit
}

/// The order of two keys in a map.
pub fn order_of(a: &StorageKey, b: &StorageKey) -> Ordering
    ensures order { result ≡ key_order (plain_key a.now) (plain_key b.now) }
{
    a.cmp(b)
}
