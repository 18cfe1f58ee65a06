//! Whether a document or a load is first party.
ghost use Rattle.std.specs.Prelude.{◌≡◌, map};
ghost use Rattle.storage_key.specs.Context.{context_of, has_only, is_first_party, is_of};
ghost use Rattle.storage_key.specs.Plain.{plain_context, plain_chain_site};
ghost use Rattle.origin_site.specs.Plain.{plain_site};

use origin_site::{Site, same_site};

/// Whether a document, or a load, is first party, and its ancestor bit, which is the negation.
#[derive(Clone, Copy, Debug, PartialEq, Eq)]
pub struct Context {
    pub first: bool,
    pub bit: bool,
}

impl Context {
    /// The context of a chain, whose top stands first, and of the site of a URL.
    ///
    /// A chain that is empty, or whose top is opaque, is never first party.
    pub fn of(chain: &[Option<Site>], url: &Site) -> Context
        ensures context { plain_context result
            ≡ context_of (map plain_chain_site chain.now) (plain_site url.now) }
    {
        let first = is_first_party(chain, url);
        Context { first, bit: !first }
    }
}

fn is_first_party(chain: &[Option<Site>], url: &Site) -> bool
    ensures { result ≡ is_first_party (map plain_chain_site chain.now) (plain_site url.now) }
{
    match chain {
        [Some(top), ..] => has_only(chain, top) && same_site(top, url),
        _ => false,
    }
}

// Whether every document of the chain has this site.
fn has_only(chain: &[Option<Site>], top: &Site) -> bool
    ensures { result ≡ has_only (plain_site top.now) (map plain_chain_site chain.now) }
{
    for site in chain {
        if !is_of(site, top) {
            return false;
        }
    }
    true
}

fn is_of(site: &Option<Site>, top: &Site) -> bool
    ensures { result ≡ is_of (plain_site top.now) (plain_chain_site site.now) }
{
    match site {
        Some(site) => same_site(top, site),
        None => false,
    }
}
