//! The causes that drop a cookie.
use agent_base::NoMemory;
use std::alloc::AllocError;

/// Why the cookie of a text is not kept, in the order in which the causes are looked for.
#[derive(Debug, Clone, Copy, PartialEq, Eq)]
pub enum CookieDrop {
    /// The Domain has a byte over 7F.
    NonAsciiDomain,
    /// The Domain is a public suffix, and not the host.
    PublicSuffix,
    /// The host does not domain-match the Domain.
    DomainMismatch,
    /// A Secure cookie over http.
    NotSecureUrl,
    /// An HttpOnly cookie of a script.
    HttpOnlyFromScript,
    /// Over http, a cookie that would hide a Secure one.
    OverlaysSecure,
    /// SameSite is not None, in a cross-site context.
    SameSite,
    /// SameSite is None, without Secure.
    NoneNeedsSecure,
    /// The name begins with `__Secure-`, without Secure.
    SecurePrefix,
    /// The name begins with `__Host-`, without what that asks.
    HostPrefix,
    /// There is no name, and the value begins with a prefix of names.
    NamelessPrefix,
    /// A script, and the cookie to be replaced is HttpOnly.
    OverwritesHttpOnly,
    /// Partitioned without Secure.
    PartitionedNeedsSecure,
    /// The context has no unpartitioned cookies.
    ThirdParty,
    /// A growth of memory was refused.
    NoMemory,
}

impl From<AllocError> for CookieDrop {
    ghost use Rattle.std.specs.Prelude.{◌≡◌};
    ghost use Rattle.cookie_jar.specs.declared.cause.CookieDrop.TheVariants.{NoMemory};

    ghost from_gives = { λ _ e. e ≡ NoMemory };

    fn from(_: AllocError) -> CookieDrop {
        CookieDrop::NoMemory
    }
}

impl From<NoMemory> for CookieDrop {
    ghost use Rattle.std.specs.Prelude.{◌≡◌};
    ghost use Rattle.cookie_jar.specs.declared.cause.CookieDrop.TheVariants as why;

    ghost from_gives = { λ _ e. e ≡ why.NoMemory };

    fn from(_: NoMemory) -> CookieDrop {
        CookieDrop::NoMemory
    }
}
