//! Whether storage access is granted to a request.
ghost use Rattle.std.specs.Prelude.{◌≡◌, IfOk, Some};
ghost use Rattle.origin_site.specs.Plain.{plain_address};
ghost use Rattle.frame_tree.specs.Plain.{plain_document};
ghost use Rattle.agent_model.specs.CookieUses as spec;

use agent_base::NoMemory;
use frame_tree::{Document, Tab};
use origin_site::{Address, same_origin};
use std::alloc::Global;

/// Whether access is granted to a request of a frame's document.
pub fn is_granted_at(alloc: Global, tab: &Tab, frame: u8, url: &Address) -> Result<bool, NoMemory>
    ensures granted { let granted = spec.is_granted_at frame tab.now (plain_address url.now) in
        IfOk result (λ is. is ≡ granted) }
{
    match tab.document(frame) {
        Some(document) => is_granted_to(alloc, document, url),
        None => Ok(false),
    }
}

/// Whether access is granted to the load of a frame that goes to another address.
pub fn is_granted_nav(
    alloc: Global,
    tab: &Tab,
    frame: u8,
    url: &Address,
    by_self: bool,
) -> Result<bool, NoMemory>
    ensures granted { let granted = spec.is_granted_nav by_self frame tab.now
        (plain_address url.now) in
        IfOk result (λ is. is ≡ granted) }
{
    if by_self {
        is_granted_at(alloc, tab, frame, url)
    } else {
        Ok(false)
    }
}

// Whether access is granted to a request of a document.
fn is_granted_to(alloc: Global, document: &Document, url: &Address) -> Result<bool, NoMemory>
    ensures { let own = Some (plain_document document.now) in
        IfOk result (λ is. is ≡ spec.is_granted_to (plain_address url.now) own) }
{
    if !document.flag {
        return Ok(false);
    }
    match &document.origin {
        Some(origin) => Ok(same_origin(origin, &url.origin(alloc)?)),
        None => Ok(false),
    }
}
