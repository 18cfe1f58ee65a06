//! Texts `scheme://host`, which are not made to be looked at or written.
ghost use Rattle.std.specs.Prelude.{◌≡◌, ◌++◌, IfSome, IsTrue, bytes_eq, codes};
ghost use Rattle.origin_site.specs.Domain.{IsLabelSuffix};
ghost use Rattle.origin_site.specs.Origin.{is_default, scheme_text};
ghost use Rattle.origin_site.specs.Plain.{plain_origin};
ghost use Rattle.origin_site.specs.Site.{site_text};

use origin_site::Origin;

// What stands before a host.
pub fn scheme_front(https: bool) -> &'static str
    ensures { result.now ≡ scheme_text https ++ codes "://" }
{
    if https { "https://" } else { "http://" }
}

// Whether a text is `scheme://host`.
#[tactic(auto, using(crate::proofs::HostLemmas::host_text, crate::proofs::HostLemmas::no_host_text))]
pub fn is_host_text(https: bool, host: &str, text: &str) -> bool
    ensures { result ≡ bytes_eq (site_text (record { https = https; host = host.now })) text.now }
{
    match text.as_bytes().strip_prefix(scheme_front(https).as_bytes()) {
        Some(rest) => rest == host.as_bytes(),
        None => false,
    }
}

// Whether an origin's text has no port.
pub fn has_default_port(origin: &Origin) -> bool
    ensures { let o = plain_origin origin.now in result ≡ is_default o.https o.port }
{
    origin.port == (if origin.https { 443 } else { 80 })
}

// Whether a text is a host, or what stands behind one of its dots.
pub fn is_label_suffix(host: &str, ip: bool, suffix: &str) -> bool
    ensures { IsTrue result → IsLabelSuffix ip host.now suffix.now }
{
    let Some(front) = host.strip_suffix(suffix) else {
        return false;
    };
    match front.as_bytes() {
        [] => true,
        [.., last] => !ip && *last == b'.',
    }
}

// The host in a text that is `scheme://host` of a label suffix of an origin's host.
pub fn own_host<'t>(text: &'t str, origin: &Origin) -> Option<&'t str>
    ensures { IfSome result (λ host. let o = plain_origin origin.now in
        (text.now ≡ site_text (record { https = o.https; host = host.now }))
        × IsLabelSuffix o.ip o.host host.now) }
{
    let host = text.strip_prefix(scheme_front(origin.https))?;
    if is_label_suffix(origin.host.as_str(), origin.ip, host) {
        Some(host)
    } else {
        None
    }
}
