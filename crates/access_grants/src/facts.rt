//! What a request for storage access depends on.
ghost use Rattle.std.specs.Prelude.{◌≡◌};
ghost use Rattle.access_grants.specs.Request.{has_access};

/// What the user answers to the prompt.
#[derive(Clone, Copy, Debug, PartialEq, Eq)]
pub enum Answer {
    Grant,
    Deny,
    /// The prompt is closed without an answer.
    Dismiss,
}

/// The state of the document that asks.
#[derive(Clone, Copy, Debug, PartialEq, Eq)]
pub struct Facts {
    /// The document's origin is opaque.
    pub opaque: bool,
    /// Every document from the top to this one is https.
    pub secure: bool,
    /// The permissions policy denies `storage-access`.
    pub deny: bool,
    /// There is no sandbox, or it has `allow-storage-access-by-user-activation`.
    pub sandbox_allows: bool,
    /// The document is first party.
    pub first: bool,
    /// The document's flag of storage access is set.
    pub flag: bool,
    /// The document has transient activation.
    pub active: bool,
}

impl Facts {
    /// Whether the document has access to its unpartitioned cookies.
    pub fn has_access(&self) -> bool
        ensures access { result ≡ has_access self.now }
    {
        !self.opaque && self.secure && (self.first || self.flag)
    }
}
