//! Addresses.
ghost use Rattle.std.specs.Prelude.{◌≡◌, ◌≤◌, IfOk, None, Some, bytes_eq, codes, false, length};
ghost use Rattle.std.specs.Prelude.{if◌then◌else◌, string_bytes, true};
ghost use Rattle.url.specs.Parts.{serialize};
ghost use Rattle.origin_site.specs.Address as spec;
ghost use Rattle.origin_site.specs.Origin.{ReadsBack, SuffixesReadBack};

use agent_base::NoMemory;
use std::alloc::{AllocError, Global};
use url::{ParseError, Url};

/// An http or https URL, taken apart. `text` is the whole URL as the URL Standard writes it, with
/// user, query and fragment. `path` is without query, and `host` of IPv6 has its brackets.
#[derive(Debug, Drop, PartialEq, Eq, PartialOrd, Ord, Hash)]
pub struct Address {
    pub text: String,
    pub https: bool,
    pub ip: bool,
    pub host: String,
    pub port: u16,
    pub path: String,
    // the text of the address's origin is the text of an address
    ghost reads: { ReadsBack
        (record { https = https; ip = ip; host = string_bytes host; port = port }) },
    // each label suffix of the host is a host, whose site's text reads back
    ghost suffixes: { SuffixesReadBack https ip (string_bytes host) },
}

/// Why a text is no address.
#[derive(Clone, Copy, Debug, PartialEq, Eq)]
pub enum AddressFault {
    /// The URL Standard's parser fails.
    NotUrl,
    /// The scheme is neither http nor https.
    OtherScheme,
    /// The host ends with a dot.
    TrailingDot,
    /// The URL's text has over 8,192 bytes.
    TooLong,
    /// A growth of memory was refused.
    NoMemory,
}

impl From<AllocError> for AddressFault {
    ghost use Rattle.std.specs.Prelude.{◌≡◌};
    ghost use Rattle.origin_site.specs.declared.address.AddressFault.TheVariants.{NoMemory};

    ghost from_gives = { λ _ e. e ≡ NoMemory };

    fn from(_: AllocError) -> AddressFault {
        AddressFault::NoMemory
    }
}

impl Address {
    ghost use Rattle.agent_base.specs.Answers.{Answers, Decides};
    ghost use Rattle.origin_site.specs.Address.{address_of, address_of_parts, address_parts};
    ghost use Rattle.origin_site.specs.Plain.{plain_address};

    /// Reads an address from its text, in time linear in the text. Of several faults the first in
    /// the order of [`AddressFault`] is answered.
    pub fn read(alloc: Global, text: &str) -> Result<Address, AddressFault>
        ensures answer { Answers plain_address AddressFault.NoMemory (address_of text.now) result }
    {
        match Url::parse(alloc, text) {
            Ok(url) => Address::of_url(alloc, url),
            Err(ParseError::OutOfMemory | ParseError::Overflow) => Err(AddressFault::NoMemory),
            Err(_) => Err(AddressFault::NotUrl),
        }
    }

    /// The same address, over memory of its own.
    pub fn copy(&self, alloc: Global) -> Result<Address, NoMemory>
        ensures same { IfOk result (λ a. plain_address a ≡ plain_address self.now) }
    {
        Ok(Address {
            text: String::from_str(alloc, self.text.as_str())?,
            https: self.https,
            ip: self.ip,
            host: String::from_str(alloc, self.host.as_str())?,
            port: self.port,
            path: String::from_str(alloc, self.path.as_str())?,
        })
    }

    fn of_url(alloc: Global, url: Url) -> Result<Address, AddressFault>
        ensures { Decides plain_address AddressFault.NoMemory (address_of_parts url) result }
    {
        let Some(https) = web_scheme(&url) else {
            return Err(AddressFault::OtherScheme);
        };
        if ends_with_dot(host_of(&url)) {
            return Err(AddressFault::TrailingDot);
        }
        if url.as_str().len() > 8192 {
            return Err(AddressFault::TooLong);
        }
        Ok(Address::taken(alloc, url, https)?)
    }

    // The address of a URL, whose whole text it keeps.
    fn taken(alloc: Global, url: Url, https: bool) -> Result<Address, AllocError>
        requires web { spec.is_web url ≡ true }
        requires https { https ≡ bytes_eq url.scheme (codes "https") }
        requires no_dot { spec.ends_with_dot (spec.host_of url) ≡ false }
        requires short { length (serialize url) ≤ 8192 }
        ensures { IfOk result (λ a. plain_address a ≡ address_parts url) }
    {
        Ok(Address {
            https,
            ip: url.domain().is_none(),
            host: String::from_str(alloc, host_of(&url))?,
            port: port_of(&url, https),
            path: String::from_str(alloc, url.path())?,
            text: String::from(url),
        })
    }
}

// Whether the scheme is https, if it is https or http.
fn web_scheme(url: &Url) -> Option<bool>
    ensures { result ≡ (if spec.is_web url.now
        then Some (bytes_eq url.now.scheme (codes "https")) else None) }
{
    let scheme = url.scheme().as_bytes();
    if scheme == "https".as_bytes() {
        Some(true)
    } else if scheme == "http".as_bytes() {
        Some(false)
    } else {
        None
    }
}

// The port that is written, or the default of https or http.
fn port_of(url: &Url, https: bool) -> u16
    requires web { spec.is_web url.now ≡ true }
    requires https { https ≡ bytes_eq url.now.scheme (codes "https") }
    ensures { result ≡ spec.port_of url.now }
{
    let default = if https { 443 } else { 80 };
    url.port().unwrap_or(default)
}

fn host_of(url: &Url) -> &str
    ensures { result.now ≡ spec.host_of url.now }
{
    url.host_str().unwrap_or("")
}

fn ends_with_dot(host: &str) -> bool
    ensures { result ≡ spec.ends_with_dot host.now }
{
    matches!(host.as_bytes(), [.., b'.'])
}
