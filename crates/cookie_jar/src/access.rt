//! Who stores or reads cookies, and which cells there are for a cookie.
/// The URL and the context of a request, or of a script of a document. Host and path are those of
/// the URL, in the form that the URL Standard writes them in.
#[derive(Debug, Clone, Copy)]
pub struct Access<'a> {
    pub https: bool,
    pub host: &'a str,
    /// Whether the host is an IP address.
    pub ip: bool,
    pub path: &'a str,
    /// Whether the context is first party.
    pub first: bool,
    /// Whether the request is same-site; of a script, whether its own context is first party.
    pub same_site: bool,
    /// Whether the request loads a top document.
    pub top_load: bool,
    /// Whether the method is GET, HEAD or OPTIONS.
    pub safe: bool,
    /// Whether a script stores or reads.
    pub script: bool,
    /// Whether access to unpartitioned cookies was granted.
    pub granted: bool,
}

/// The cell that a cookie goes to.
#[derive(Debug, Clone, Copy, PartialEq, Eq)]
pub enum Destination {
    /// The unpartitioned cookies of the domain.
    Own,
    /// The partition of the domain under the top-level site.
    Partition,
    /// There is none.
    Nowhere,
}
