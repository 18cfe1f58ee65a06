//! The words that answer a Set-Cookie text.
ghost use Rattle.std.specs.Prelude.{◌≡◌};
ghost use Rattle.agent_model.specs.CookieWords as spec;

use cookie_jar::{CookieDrop, StoredKind};
use setcookie_parse::DropCause;

/// The word for a text that is no cookie.
pub fn parse_word(why: DropCause) -> &'static str
    ensures value { result.now ≡ spec.parse_word why }
{
    match why {
        DropCause::Control => "control",
        DropCause::TooLong => "too-long",
        DropCause::Empty => "empty",
    }
}

/// The word for a cookie that was stored.
pub fn stored_word(kind: StoredKind) -> &'static str
    ensures value { result.now ≡ spec.stored_word kind }
{
    match kind {
        StoredKind::Added => "added",
        StoredKind::Replaced => "replaced",
        StoredKind::Removed => "removed",
    }
}

/// The word for a cookie that was dropped. Want of memory drops none.
pub fn drop_word(why: CookieDrop) -> &'static str
    ensures value { result.now ≡ spec.drop_word why }
{
    match why {
        CookieDrop::NonAsciiDomain => "non-ascii-domain",
        CookieDrop::PublicSuffix => "public-suffix",
        CookieDrop::DomainMismatch => "domain-mismatch",
        CookieDrop::NotSecureUrl => "not-secure-url",
        CookieDrop::HttpOnlyFromScript => "http-only-from-script",
        CookieDrop::OverlaysSecure => "overlays-secure",
        CookieDrop::SameSite => "same-site",
        CookieDrop::NoneNeedsSecure => "none-needs-secure",
        CookieDrop::SecurePrefix => "secure-prefix",
        CookieDrop::HostPrefix => "host-prefix",
        CookieDrop::NamelessPrefix => "nameless-prefix",
        CookieDrop::OverwritesHttpOnly => "overwrites-http-only",
        CookieDrop::PartitionedNeedsSecure => "partitioned-needs-secure",
        CookieDrop::ThirdParty => "third-party",
        CookieDrop::NoMemory => "",
    }
}
