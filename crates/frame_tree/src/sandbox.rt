//! Sandboxes.
ghost use Rattle.std.specs.Prelude.{◌≡◌, option_copied};
ghost use Rattle.case_tables.specs.Rows.{same_in_any_case};
ghost use Rattle.frame_tree.specs.Plain.{plain_sandbox};
ghost use Rattle.frame_tree.specs.Sandbox.{both, has_token, sandbox_of, unrestricted};

/// What a sandbox allows a document. Without a sandbox both are true.
#[derive(Clone, Copy, Debug, PartialEq, Eq)]
pub struct Sandbox {
    /// The document has the origin of its address, and no opaque one.
    pub same_origin: bool,
    /// The document may ask for storage access.
    pub storage_access: bool,
}

impl Sandbox {
    /// What the text of a `sandbox` attribute allows. None is no attribute.
    pub fn read(text: Option<&str>) -> Sandbox
        ensures sandbox { plain_sandbox result ≡ sandbox_of (option_copied text.entry) }
    {
        match text {
            Some(text) => Sandbox {
                same_origin: has_token(b"allow-same-origin", text.as_bytes()),
                storage_access: has_token(
                    b"allow-storage-access-by-user-activation",
                    text.as_bytes(),
                ),
            },
            None => Sandbox::unrestricted(),
        }
    }

    /// No restriction.
    pub fn unrestricted() -> Sandbox
        ensures all { plain_sandbox result ≡ unrestricted }
    {
        Sandbox {
            same_origin: true,
            storage_access: true,
        }
    }

    /// What both allow.
    pub fn both(self, other: Sandbox) -> Sandbox
        ensures both { plain_sandbox result ≡ both (plain_sandbox self) (plain_sandbox other) }
    {
        Sandbox {
            same_origin: self.same_origin && other.same_origin,
            storage_access: self.storage_access && other.storage_access,
        }
    }
}

// Whether a word is one of a text's tokens.
fn has_token(word: &[u8], text: &[u8]) -> bool
    ensures { result ≡ has_token word.now text.now }
{
    text.split(|b| b.is_ascii_whitespace())
        .any(|part| is_same(word, part))
}

fn is_same(a: &[u8], b: &[u8]) -> bool
    ensures { result ≡ same_in_any_case a.now b.now }
{
    a.eq_ignore_ascii_case(b)
}
