//! A document with what its load made from the documents above.
ghost use Rattle.std.specs.Prelude.{◌≡◌, ◌&&◌, ◌||◌, IfOk, not, option_map};
ghost use Rattle.origin_site.specs.Plain.{plain_origin, plain_site};
ghost use Rattle.origin_site.specs.Site.{same_plain_site};
ghost use Rattle.storage_key.specs.Context.{is_of};
ghost use Rattle.storage_key.specs.Plain.{plain_key};
ghost use Rattle.frame_tree.specs.Kept.{kept_document, kept_under};
ghost use Rattle.frame_tree.specs.Plain.{plain_chain_site, plain_document};

use crate::Document;
use agent_base::NoMemory;
use origin_site::{Origin, Site, same_site};
use std::alloc::Global;
use storage_key::StorageKey;

/// A document, the ancestor bit of its own context, and its storage key.
///
/// The bit and the key are made at the load, and stay while the document lives, since the documents
/// above do: a navigation of one of them removes this one.
#[derive(Debug, Drop)]
pub struct Loaded {
    pub document: Document,
    pub bit: bool,
    /// None where the document is opaque.
    pub key: Option<StorageKey>,
}

impl Loaded {
    /// A document in a tab at a site, below a document of this bit. A top is below none.
    pub fn below(
        alloc: Global,
        top: &Site,
        above: bool,
        document: Document,
    ) -> Result<Loaded, NoMemory>
        ensures made { IfOk result (λ loaded. kept_document loaded
            ≡ kept_under (plain_site top.now) above (plain_document document)) }
    {
        let bit = above || !is_of(&document.site, top);
        let key = key_under(alloc, top, bit, &document.origin)?;
        Ok(Loaded { document, bit, key })
    }

    /// Whether what is at a site is first party below this document, in a tab at a site.
    pub fn is_first(&self, top: &Site, url: &Site) -> bool
        ensures first { result
            ≡ (not self.now.bit && same_plain_site (plain_site top.now) (plain_site url.now)) }
    {
        !self.bit && same_site(top, url)
    }

    /// The same, over memory of its own.
    pub fn copy(&self, alloc: Global) -> Result<Loaded, NoMemory>
        ensures same { IfOk result (λ loaded. kept_document loaded ≡ kept_document self.now) }
    {
        Ok(Loaded {
            document: self.document.copy(alloc)?,
            bit: self.bit,
            key: copy_of_key(alloc, &self.key)?,
        })
    }
}

// Whether a document has this site.
fn is_of(site: &Option<Site>, top: &Site) -> bool
    ensures { result ≡ is_of (plain_site top.now) (plain_chain_site site.now) }
{
    match site {
        Some(site) => same_site(top, site),
        None => false,
    }
}

// The key of an origin in a tab at a site. None is an opaque origin.
fn key_under(
    alloc: Global,
    top: &Site,
    bit: bool,
    origin: &Option<Origin>,
) -> Result<Option<StorageKey>, NoMemory>
    ensures { IfOk result (λ key. option_map plain_key key
        ≡ option_map (λ origin. record { top = plain_site top.now; origin = origin; bit = bit })
        (option_map plain_origin origin.now)) }
{
    match origin {
        Some(origin) => Ok(Some(StorageKey {
            top: top.copy(alloc)?,
            origin: origin.copy(alloc)?,
            bit,
        })),
        None => Ok(None),
    }
}

fn copy_of_key(alloc: Global, key: &Option<StorageKey>) -> Result<Option<StorageKey>, NoMemory>
    ensures { IfOk result (λ copy. option_map plain_key copy ≡ option_map plain_key key.now) }
{
    match key {
        Some(key) => Ok(Some(key.copy(alloc)?)),
        None => Ok(None),
    }
}
