//! The domain of a host and the site of an origin, under a suffix list.
ghost use Rattle.std.specs.Prelude.{◌≡◌, IfOk};
ghost use Rattle.origin_site.specs.Domain.{IsLabelSuffix, host_domain};
ghost use Rattle.origin_site.specs.Plain.{plain_origin, plain_site};
ghost use Rattle.origin_site.specs.Site.{IsOwnSite, SiteReadsBack, site_of_origin};

use crate::{Origin, Site};
use agent_base::NoMemory;
use std::alloc::Global;
use suffix_list::SuffixList;

/// The site of an origin. Its text reads back as this site, by [`Site::read`], and as an address
/// whose site this is.
pub fn site_of(alloc: Global, origin: &Origin, list: &SuffixList) -> Result<Site, NoMemory>
    ensures value { IfOk result
        (λ s. plain_site s ≡ site_of_origin list.now.rules (plain_origin origin.now)) }
    ensures reads { IfOk result (λ s. SiteReadsBack (plain_site s)) }
    ensures own { IfOk result (λ s. IsOwnSite list.now.rules (plain_site s)) }
{
    let host = domain_of(origin.host.as_str(), origin.ip, list);
    Ok(Site {
        https: origin.https,
        host: String::from_str(alloc, host)?,
    })
}

/// The domain of a host: its registrable domain, or the host itself where it has none or is an IP
/// address. It is its own domain again. Takes no memory.
pub fn domain_of<'h>(host: &'h str, ip: bool, list: &SuffixList) -> &'h str
    ensures value { result.now ≡ host_domain list.now.rules ip host.now }
    ensures own { host_domain list.now.rules ip result.now ≡ result.now }
    ensures suffix { IsLabelSuffix ip host.now result.now }
{
    if ip {
        host
    } else {
        list.registrable(host).unwrap_or(host)
    }
}
