//! Which storage keys a list has.
ghost use Rattle.std.specs.Prelude.{◌≡◌};
ghost use Rattle.origin_site.specs.Plain.{plain_origin, plain_site};
ghost use Rattle.origin_site.specs.Site.{same_plain_site, site_of_origin};
ghost use Rattle.storage_key.specs.Plain.{plain_key};
ghost use Rattle.storage_key.specs.Stays.{key_stays};

use crate::StorageKey;
use origin_site::{Origin, Site, domain_of, is_own_host};
use suffix_list::SuffixList;

impl StorageKey {
    /// Whether the key is one under a list: its top-level site is a site there, and where its bit
    /// is clear its origin is of that site. Takes no memory.
    pub fn stays(&self, list: &SuffixList) -> bool
        ensures stays { result ≡ key_stays list.now.rules (plain_key self.now) }
    {
        let is_site = is_own_host(self.top.host.as_str(), list);
        is_site && (self.bit || is_at(&self.origin, &self.top, list))
    }
}

// Whether an origin is of a site under a list.
fn is_at(origin: &Origin, site: &Site, list: &SuffixList) -> bool
    ensures { let own = site_of_origin list.now.rules (plain_origin origin.now) in
        result ≡ same_plain_site own (plain_site site.now) }
{
    let domain = domain_of(origin.host.as_str(), origin.ip, list);
    origin.https == site.https && domain == site.host.as_str()
}
