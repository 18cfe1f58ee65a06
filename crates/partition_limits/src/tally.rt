//! What a cell holds.
ghost use Rattle.std.specs.Prelude.{◌≡◌};
ghost use Rattle.partition_limits.specs.Limits as spec;

const COOKIE_LIMIT: u128 = 180;

const BYTE_LIMIT: u128 = 10_240;

/// The two kinds of cells.
#[derive(Clone, Copy, Debug, Drop, PartialEq, Eq)]
pub enum CellKind {
    /// The unpartitioned cookies of a domain.
    Own,
    /// The cookies of a domain under a top-level site.
    Partition,
}

/// How many cookies a cell holds, and the bytes of their names and values.
#[derive(Clone, Copy, Debug, Drop, PartialEq, Eq)]
pub struct Tally {
    pub cookies: u32,
    pub bytes: u32,
}

impl Tally {
    /// Whether a cell of this kind may hold so much.
    pub fn fits(&self, kind: CellKind) -> bool
        ensures test { result ≡ spec.fits kind self.now.cookies self.now.bytes }
    {
        fits(kind, self.cookies as u128, self.bytes as u128)
    }
}

pub fn fits(kind: CellKind, cookies: u128, bytes: u128) -> bool
    ensures { result ≡ spec.fits kind cookies bytes }
{
    match kind {
        CellKind::Own => cookies <= COOKIE_LIMIT,
        CellKind::Partition => cookies <= COOKIE_LIMIT && bytes <= BYTE_LIMIT,
    }
}
