//! Hosts by their text alone, and which of them are their own domain under a list.
ghost use Rattle.std.specs.Prelude.{◌≡◌};
ghost use Rattle.suffix_list.specs.Suffix.{last_labels};
ghost use Rattle.origin_site.specs.Own as spec;
ghost use Rattle.origin_site.specs.Own.{AddressesTellTheirKind};

use crate::domain_of;
use memchr::memrchr;
use suffix_list::SuffixList;

/// Whether a host is an IP address, by its text: it stands in brackets, or its last label has
/// digits alone. Of the host of an [`Address`](crate::Address) this is what its `ip` says. Takes
/// no memory.
pub fn is_ip_host(host: &str) -> bool
    ensures { result ≡ spec.is_ip_host host.now }
{
    matches!(host.as_bytes(), [b'[', ..]) || is_number(last_label(host))
}

/// The domain of a host under a list: its registrable domain, or the host itself where it has none
/// or is an IP address by its text. Takes no memory.
pub fn domain_under<'h>(host: &'h str, list: &SuffixList) -> &'h str
    ensures { result.now ≡ spec.domain_under list.now.rules host.now }
{
    domain_of(host, is_ip_host(host), list)
}

/// Whether a host is its own domain under a list, so that a site may have it. A host that is a
/// public suffix there is its own domain. Takes no memory.
pub fn is_own_host(host: &str, list: &SuffixList) -> bool
    ensures { result ≡ spec.is_own_host list.now.rules host.now }
{
    domain_under(host, list) == host
}

/// What `ip` says of an address, [`is_ip_host`] says of its host.
pub fn addresses_tell_their_kind()
    ensures kind { AddressesTellTheirKind }
{}

// What stands behind the last dot, or all where there is none.
fn last_label(host: &str) -> &str
    ensures { result.now ≡ last_labels 1 host.now }
{
    match memrchr(b'.', host.as_bytes()) {
        Some(dot) => &host[dot + 1..],
        None => host,
    }
}

// Whether a label has digits, and nothing else.
fn is_number(label: &str) -> bool
    ensures { result ≡ spec.is_decimal label.now }
{
    !label.is_empty() && label.bytes().all(|b| b.is_ascii_digit())
}
