//! Origins.
ghost use Rattle.std.specs.Prelude.{◌≡◌, IfOk, string_bytes};
ghost use Rattle.origin_site.specs.Origin.{ReadsBack, SuffixesReadBack};

mod same;

use crate::Address;
use agent_base::NoMemory;
pub use same::same_origin;
use std::alloc::Global;

/// A scheme, a host and a port. `ip` says whether the host is an IP address.
#[derive(Debug, Drop, PartialEq, Eq, PartialOrd, Ord, Hash)]
pub struct Origin {
    pub https: bool,
    pub ip: bool,
    pub host: String,
    pub port: u16,
    // the origin's text is the text of an address
    ghost reads: { ReadsBack
        (record { https = https; ip = ip; host = string_bytes host; port = port }) },
    // each label suffix of the host is a host, whose site's text reads back
    ghost suffixes: { SuffixesReadBack https ip (string_bytes host) },
}

impl Origin {
    ghost use Rattle.origin_site.specs.Origin.{origin_text};
    ghost use Rattle.origin_site.specs.Plain.{plain_origin};

    /// The text `scheme://host`, with `:port` where it is not the scheme's default. It is the text
    /// of an address, which is the origin's root.
    pub fn text(&self, alloc: Global) -> Result<String, NoMemory>
        ensures value { IfOk result (λ t. string_bytes t ≡ origin_text (plain_origin self.now)) }
        ensures reads { ReadsBack (plain_origin self.now) }
    {
        let scheme = if self.https { "https" } else { "http" };
        let host = self.host.as_str();
        let port = self.port;
        if port == (if self.https { 443 } else { 80 }) {
            Ok(format!(in alloc; "{scheme}://{host}")?)
        } else {
            Ok(format!(in alloc; "{scheme}://{host}:{port}")?)
        }
    }

    /// The same origin, over memory of its own.
    pub fn copy(&self, alloc: Global) -> Result<Origin, NoMemory>
        ensures same { IfOk result (λ o. plain_origin o ≡ plain_origin self.now) }
    {
        Ok(Origin {
            https: self.https,
            ip: self.ip,
            host: String::from_str(alloc, self.host.as_str())?,
            port: self.port,
        })
    }
}

impl Address {
    ghost use Rattle.origin_site.specs.Origin.{origin_of_address};
    ghost use Rattle.origin_site.specs.Plain.{plain_address, plain_origin};

    /// The origin of the address.
    pub fn origin(&self, alloc: Global) -> Result<Origin, NoMemory>
        ensures value { IfOk result
            (λ o. plain_origin o ≡ origin_of_address (plain_address self.now)) }
    {
        Ok(Origin {
            https: self.https,
            ip: self.ip,
            host: String::from_str(alloc, self.host.as_str())?,
            port: self.port,
        })
    }
}
