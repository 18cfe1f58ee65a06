//! Which cell a cookie goes to, and what names a cell.
ghost use Rattle.std.specs.Prelude.{◌≡◌, IfOk};
ghost use Rattle.setcookie_parse.specs.Plain.{plain_text};
ghost use Rattle.cookie_jar.specs.Access as spec;
ghost use Rattle.cookie_jar.specs.Key.{plain_key};
ghost use Rattle.cookie_jar.specs.Plain.{plain_access};

use crate::access::{Access, Destination};
use agent_base::NoMemory;
use origin_site::Site;
use setcookie_parse::CookieText;
use std::alloc::Global;

/// What names a cell among all.
#[derive(Debug, Drop, PartialEq, Eq, PartialOrd, Ord, Hash)]
pub enum CellKey {
    /// The unpartitioned cookies of a domain.
    Own {
        domain: String,
    },
    /// The cookies of a domain under a top-level site and an ancestor bit.
    Partition {
        top: Site,
        bit: bool,
        domain: String,
    },
}

impl CellKey {
    /// The same key, over memory of its own.
    pub fn copy(&self, alloc: Global) -> Result<CellKey, NoMemory>
        ensures same { IfOk result (λ k. plain_key k ≡ plain_key self.now) }
    {
        match self {
            CellKey::Own { domain } => Ok(CellKey::Own {
                domain: String::from_str(alloc, domain.as_str())?,
            }),
            CellKey::Partition { top, bit, domain } => Ok(CellKey::Partition {
                top: top.copy(alloc)?,
                bit: *bit,
                domain: String::from_str(alloc, domain.as_str())?,
            }),
        }
    }
}

/// The cell that the cookie of a text goes to.
pub fn destination(cookie: &CookieText<'_>, access: &Access<'_>) -> Destination
    ensures value { result ≡ spec.destination (plain_text cookie.now) (plain_access access.now) }
{
    if cookie.partitioned {
        Destination::Partition
    } else if access.first || access.granted {
        Destination::Own
    } else {
        Destination::Nowhere
    }
}
