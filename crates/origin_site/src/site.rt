//! Sites.
ghost use Rattle.std.specs.Prelude.{◌≡◌, ◌++◌, codes, IfOk, string_bytes};
ghost use Rattle.origin_site.specs.Origin.{scheme_text};
ghost use Rattle.origin_site.specs.Site.{SiteReadsBack};

mod same;

use crate::{Address, AddressFault};
use agent_base::NoMemory;
pub use same::same_site;
use std::alloc::{AllocError, Global};

/// A scheme and a host, mostly a domain: what the storage of web pages is divided by.
#[derive(Debug, Drop, PartialEq, Eq, PartialOrd, Ord, Hash)]
pub struct Site {
    pub https: bool,
    pub host: String,
    // the site's text is the text of this site
    ghost reads: { SiteReadsBack (record { https = https; host = string_bytes host }) },
}

/// Why a text is no site.
#[derive(Clone, Copy, Debug, PartialEq, Eq)]
pub enum SiteFault {
    /// The text is no address, or not `scheme://host` of the address that it is.
    NotSite,
    /// A growth of memory was refused.
    NoMemory,
}

impl From<AllocError> for SiteFault {
    ghost use Rattle.std.specs.Prelude.{◌≡◌};
    ghost use Rattle.origin_site.specs.declared.site.SiteFault.TheVariants.{NoMemory};

    ghost from_gives = { λ _ e. e ≡ NoMemory };

    fn from(_: AllocError) -> SiteFault {
        SiteFault::NoMemory
    }
}

impl Site {
    ghost use Rattle.agent_base.specs.Answers.{Answers};
    ghost use Rattle.origin_site.specs.Plain.{plain_site};
    ghost use Rattle.origin_site.specs.Site.{site_of_text, site_text};

    /// Reads a site from its text. No list is asked: the host may have more labels than a domain.
    pub fn read(alloc: Global, text: &str) -> Result<Site, SiteFault>
        ensures answer { Answers plain_site SiteFault.NoMemory (site_of_text text.now) result }
    {
        let address = match Address::read(alloc, text) {
            Ok(address) => address,
            Err(AddressFault::NoMemory) => return Err(SiteFault::NoMemory),
            Err(_) => return Err(SiteFault::NotSite),
        };
        let whole = text_of(alloc, address.https, address.host.as_str())?;
        if whole.as_str() != text {
            return Err(SiteFault::NotSite);
        }
        Ok(Site {
            https: address.https,
            host: address.host,
        })
    }

    /// The text `scheme://host`, which [`Site::read`] reads back.
    pub fn text(&self, alloc: Global) -> Result<String, NoMemory>
        ensures value { IfOk result (λ t. string_bytes t ≡ site_text (plain_site self.now)) }
        ensures reads { SiteReadsBack (plain_site self.now) }
    {
        Ok(text_of(alloc, self.https, self.host.as_str())?)
    }

    /// The same site, over memory of its own.
    pub fn copy(&self, alloc: Global) -> Result<Site, NoMemory>
        ensures same { IfOk result (λ s. plain_site s ≡ plain_site self.now) }
    {
        Ok(Site {
            https: self.https,
            host: String::from_str(alloc, self.host.as_str())?,
        })
    }
}

// `scheme://host`
fn text_of(alloc: Global, https: bool, host: &str) -> Result<String, AllocError>
    ensures { IfOk result (λ t. string_bytes t ≡ scheme_text https ++ (codes "://" ++ host.now)) }
{
    let scheme = if https { "https" } else { "http" };
    format!(in alloc; "{scheme}://{host}")
}
