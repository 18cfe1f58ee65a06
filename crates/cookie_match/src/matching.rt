//! Domains and paths that match.
ghost use Rattle.std.specs.Prelude.{◌≡◌, ◌<◌, ◌-◌, bytes_eq, codes, not, length, slice_index};
ghost use Rattle.std.specs.List.{count_by, suffix_len};
ghost use Rattle.cookie_match.specs.Matching as spec;

/// Whether a host domain-matches a domain. Both are in lower case; `ip` tells that the host is an
/// IP address, which no domain but itself is matched by.
pub fn domain_matches(ip: bool, host: &str, domain: &str) -> bool
    ensures value { result ≡ spec.domain_matches ip host.now domain.now }
{
    host == domain || (!ip && is_below(host.as_bytes(), domain.as_bytes()))
}

fn is_below(host: &[u8], domain: &[u8]) -> bool
    ensures { result ≡ spec.is_below host.now domain.now }
{
    domain.len() < host.len()
        && host.ends_with(domain)
        && host[host.len() - domain.len() - 1] == b'.'
}

/// Whether the path of a URL path-matches the path of a cookie.
pub fn path_matches(path: &str, base: &str) -> bool
    ensures value { result ≡ spec.path_matches path.now base.now }
{
    if is_root(base.as_bytes()) {
        return begins_with_slash(path.as_bytes());
    }
    path == base
        || (path.as_bytes().starts_with(base.as_bytes())
            && (ends_with_slash(base.as_bytes())
                || goes_on_with_slash(path.as_bytes(), base.as_bytes())))
}

// Whether a text is `/`, the path that most cookies have.
fn is_root(text: &[u8]) -> bool
    ensures { result ≡ bytes_eq text.now (codes "/") }
{
    matches!(text, [b'/'])
}

fn ends_with_slash(text: &[u8]) -> bool
    ensures { result ≡ spec.ends_with_slash text.now }
{
    matches!(text, [.., b'/'])
}

fn goes_on_with_slash(text: &[u8], front: &[u8]) -> bool
    ensures { result ≡ spec.goes_on_with_slash text.now front.now }
{
    front.len() < text.len() && text[front.len()] == b'/'
}

/// The path of a cookie whose text has none, from the path of the URL.
pub fn default_path(path: &str) -> &str
    ensures value { result.now ≡ spec.default_path path.now }
{
    if !begins_with_slash(path.as_bytes()) || count_slashes(path) <= 1 {
        "/"
    } else {
        &path[..last_slash(path)]
    }
}

fn begins_with_slash(text: &[u8]) -> bool
    ensures { result ≡ spec.begins_with_slash text.now }
{
    matches!(text, [b'/', ..])
}

fn count_slashes(path: &str) -> usize
    ensures { result ≡ count_by spec.is_slash path.now }
{
    path.bytes().filter(|b| *b == b'/').count()
}

// Where the last `/` stands, and the start where there is none.
fn last_slash(path: &str) -> usize
    ensures value { result
        ≡ length path.now - suffix_len (λ b. not (spec.is_slash b)) path.now - 1 }
    ensures cut { 0 < result → slice_index path.now result < 128 }
{
    let bytes = path.as_bytes();
    let mut len = bytes.len();
    while len > 0 && bytes[len - 1] != b'/' {
        len -= 1;
    }
    len.saturating_sub(1)
}
