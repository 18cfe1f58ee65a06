//! Whether a row change has a spelling.
ghost use Rattle.std.specs.Prelude.{◌≡◌, ◌↔◌, IfOk, IsTrue};
ghost use Rattle.row_changes.specs.Plain.{plain_change};
ghost use Rattle.row_changes.specs.Spelled.{IsSpelled};
ghost use Rattle.row_changes.specs.Spelling.{change_bytes};

use crate::same::same_change;
use agent_base::NoMemory;
use row_changes::{Change, append_row, changes_read_back, read_change};
use std::alloc::Global;

/// Whether a row change has a spelling: what its bytes say is this row change.
pub fn has_spelling(alloc: Global, change: &Change) -> Result<bool, NoMemory>
    ensures spelled { IfOk result
        (λ is. IsTrue is ↔ IsSpelled (plain_change change.now)) }
{
    let mut bytes = Vec::new(alloc);
    append_row(&mut bytes, change.borrowed())?;
    says(alloc, bytes.as_slice(), change)
}

// Whether the bytes of a row change say this one. They say another, as where a cookie of it has no
// expiry, or nothing.
fn says(alloc: Global, bytes: &[u8], change: &Change) -> Result<bool, NoMemory>
    requires bytes { bytes.now ≡ change_bytes (plain_change change.now) }
    ensures spelled { IfOk result
        (λ is. IsTrue is ↔ IsSpelled (plain_change change.now)) }
{
    changes_read_back();
    match read_change(alloc, bytes)? {
        Some((said, _)) => Ok(same_change(&said, change)),
        None => Ok(false),
    }
}
