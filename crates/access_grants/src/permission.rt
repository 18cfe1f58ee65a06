//! One permission.
ghost use Rattle.std.specs.Prelude.{◌≡◌, ◌+ℤ◌, IfOk, pos, int_lt, if◌then◌else◌};
ghost use Rattle.std.specs.Int.{saturate_signed};
ghost use Rattle.origin_site.specs.Plain.{plain_site};
ghost use Rattle.access_grants.specs.Grant.{PlainGrant, is_of, permission_at, state_of};
ghost use Rattle.access_grants.specs.Plain.{plain_grant};
ghost use Rattle.access_grants.specs.Stays.{grant_stays};

use agent_base::NoMemory;
use origin_site::{Site, is_own_host, same_site};
use std::alloc::Global;
use suffix_list::SuffixList;

/// The number of seconds for which the answer to a prompt is kept: 30 days.
pub const LIFETIME: i64 = 2_592_000;

/// What is known of a pair of sites at a moment.
#[derive(Clone, Copy, Debug, PartialEq, Eq)]
pub enum GrantState {
    Granted,
    Denied,
    /// There is no permission, or its time is over.
    Unset,
}

/// The answer to a prompt, as it is kept: whether access is granted, and the second at which that
/// ends.
#[derive(Clone, Copy, Debug, PartialEq, Eq)]
pub struct Permission {
    pub granted: bool,
    pub until: i64,
}

impl Permission {
    /// The permission of an answer that is given now.
    pub fn at(granted: bool, now: i64) -> Permission
        ensures permission { result ≡ permission_at granted now }
    {
        Permission {
            granted,
            until: now.saturating_add(LIFETIME),
        }
    }
}

/// The permission of a pair: `site`, embedded under the top-level site `top`.
#[derive(Debug, Drop)]
pub struct GrantRow {
    pub top: Site,
    pub site: Site,
    pub granted: bool,
    pub until: i64,
}

impl GrantRow {
    /// The row of a pair with this permission.
    pub fn new(
        alloc: Global,
        top: &Site,
        site: &Site,
        permission: Permission,
    ) -> Result<GrantRow, NoMemory>
        ensures row { let made : PlainGrant = record {
          top = plain_site top.now;
          site = plain_site site.now;
          granted = permission.granted;
          until = permission.until;
        } in
            IfOk result (λ row. plain_grant row ≡ made) }
    {
        Ok(GrantRow {
            top: top.copy(alloc)?,
            site: site.copy(alloc)?,
            granted: permission.granted,
            until: permission.until,
        })
    }

    /// The same row, over memory of its own.
    pub fn copy(&self, alloc: Global) -> Result<GrantRow, NoMemory>
        ensures same { IfOk result (λ row. plain_grant row ≡ plain_grant self.now) }
    {
        let permission = Permission {
            granted: self.granted,
            until: self.until,
        };
        GrantRow::new(alloc, &self.top, &self.site, permission)
    }

    /// Whether both sites of the row are sites under a list. Takes no memory.
    pub fn stays(&self, list: &SuffixList) -> bool
        ensures stays { result ≡ grant_stays list.now.rules (plain_grant self.now) }
    {
        is_own_host(self.top.host.as_str(), list) && is_own_host(self.site.host.as_str(), list)
    }
}

/// Whether a row is that of a pair.
pub fn is_of(row: &GrantRow, top: &Site, site: &Site) -> bool
    ensures { result ≡ is_of (plain_site top.now) (plain_site site.now) (plain_grant row.now) }
{
    same_site(top, &row.top) && same_site(site, &row.site)
}

/// What a row says at a moment.
pub fn state_of(row: &GrantRow, now: i64) -> GrantState
    ensures { result ≡ state_of now (plain_grant row.now) }
{
    if now >= row.until {
        GrantState::Unset
    } else if row.granted {
        GrantState::Granted
    } else {
        GrantState::Denied
    }
}
