/// When a cookie goes with requests from other sites.
#[derive(Debug, Clone, Copy, PartialEq, Eq)]
pub enum SameSite {
    /// No SameSite attribute says otherwise.
    Default,
    /// The attribute is `None`, so the cookie is sent with each request.
    NoneSent,
    Lax,
    Strict,
}

/// A cookie as a Set-Cookie text writes it. Each text is a slice of that text.
#[derive(Debug, Clone, Copy, PartialEq, Eq)]
pub struct CookieText<'a> {
    pub name: &'a str,
    pub value: &'a str,
    /// The Domain without one leading dot, in the case that it is written in. It is not empty.
    pub domain: Option<&'a str>,
    /// The Path, where it begins with `/`.
    pub path: Option<&'a str>,
    /// Whether there is a Path, of whatever value.
    pub has_path: bool,
    pub secure: bool,
    pub http_only: bool,
    pub partitioned: bool,
    pub same_site: SameSite,
    /// The second from which on the cookie is expired, and `None` for a session cookie.
    pub expiry: Option<i64>,
}

/// Why a Set-Cookie text is dropped.
#[derive(Debug, Clone, Copy, PartialEq, Eq)]
pub enum DropCause {
    /// The text has a control other than a tab.
    Control,
    /// Name and value have over 4,096 octets together.
    TooLong,
    /// Name and value are empty.
    Empty,
}

/// What a Set-Cookie text says.
#[derive(Debug, Clone, Copy, PartialEq, Eq)]
pub enum Parsed<'a> {
    Kept(CookieText<'a>),
    Dropped(DropCause),
}
