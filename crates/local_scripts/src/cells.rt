//! The unpartitioned cookies that an action of a document consults.
ghost use Rattle.std.specs.Prelude.{◌≡◌, ◌&&◌, ◌==◌, IfOk, is_none, is_some, not};
ghost use Rattle.origin_site.specs.Plain.{plain_address};
ghost use Rattle.frame_tree.specs.Tree.{document_of};
ghost use Rattle.script_actions.specs.Plain.{action_of};
ghost use Rattle.local_scripts.specs.Cells.{ActNames, FetchNames, FrameNames, IsUsed, NavNames, ScriptNames};

use agent_base::NoMemory;
use frame_tree::{Tab, site_of_address};
use origin_site::{Address, domain_of};
use script_actions::Action;
use std::alloc::Global;
use suffix_list::SuffixList;
use web_cookies::{is_granted_at, is_granted_nav};

/// The domain whose unpartitioned cookies an action of a document consults, if it consults any.
pub fn consulted<'a>(
    alloc: Global,
    list: &SuffixList,
    tab: &'a Tab,
    action: &'a Action,
) -> Result<Option<&'a str>, NoMemory>
    ensures cells { IfOk result (ActNames list.now.rules tab.now (action_of action.now)) }
{
    match action {
        Action::Frame {
            at,
            parent,
            url,
            ..
        } => of_frame(alloc, list, tab, at.frame, *parent, url),
        Action::Nav {
            at,
            url,
            by_self,
            ..
        } => of_navigation(alloc, list, tab, at.frame, url, *by_self),
        Action::Fetch { at, url, .. } => of_request(alloc, list, tab, at.frame, url),
        Action::Cookie { at } | Action::SetCookie { at, .. } => Ok(of_script(list, tab, at.frame)),
        _ => Ok(None),
    }
}

// Of a load of a frame that is added below a parent.
fn of_frame<'a>(
    alloc: Global,
    list: &SuffixList,
    tab: &Tab,
    frame: u8,
    parent: u8,
    url: &'a Address,
) -> Result<Option<&'a str>, NoMemory>
    ensures cells { IfOk result
        (FrameNames list.now.rules tab.now frame parent (plain_address url.now)) }
{
    if !can_be_added(tab, frame, parent) {
        return Ok(None);
    }
    let target = site_of_address(alloc, url, list)?;
    Ok(used(list, url, tab.first_party(parent, &target)))
}

// Of a load of a frame that goes to another address.
fn of_navigation<'a>(
    alloc: Global,
    list: &SuffixList,
    tab: &Tab,
    frame: u8,
    url: &'a Address,
    by_self: bool,
) -> Result<Option<&'a str>, NoMemory>
    ensures cells { IfOk result
        (NavNames list.now.rules tab.now frame (plain_address url.now) by_self) }
{
    if !can_be_navigated(tab, frame) {
        return Ok(None);
    }
    let target = site_of_address(alloc, url, list)?;
    let context = tab.context_above(frame, &target)?;
    let granted = is_granted_nav(alloc, tab, frame, url, by_self)?;
    Ok(used(list, url, context.first | granted))
}

// Of a request of a document.
fn of_request<'a>(
    alloc: Global,
    list: &SuffixList,
    tab: &Tab,
    frame: u8,
    url: &'a Address,
) -> Result<Option<&'a str>, NoMemory>
    ensures cells { IfOk result
        (FetchNames list.now.rules tab.now frame (plain_address url.now)) }
{
    if !is_there(tab, frame) {
        return Ok(None);
    }
    let target = site_of_address(alloc, url, list)?;
    let first = tab.first_party(frame, &target);
    let granted = is_granted_at(alloc, tab, frame, url)?;
    Ok(used(list, url, first | granted))
}

// Of a script, whose document has a storage key.
fn of_script<'a>(list: &SuffixList, tab: &'a Tab, frame: u8) -> Option<&'a str>
    ensures cells { ScriptNames list.now.rules tab.now frame result }
{
    let key = tab.key(frame)?;
    let document = tab.document(frame)?;
    used(list, &document.address, !key.bit | document.flag)
}

// The domain of a URL, where its unpartitioned cookies are used.
fn used<'a>(list: &SuffixList, url: &'a Address, uses: bool) -> Option<&'a str>
    ensures used { IsUsed list.now.rules (plain_address url.now) uses result }
{
    if uses {
        Some(domain_of(url.host.as_str(), url.ip, list))
    } else {
        None
    }
}

// Whether a frame is there, with its document.
fn is_there(tab: &Tab, frame: u8) -> bool
    ensures { result ≡ is_some (document_of frame tab.now) }
{
    tab.document(frame).is_some()
}

// Whether a frame can be added below a parent: that is there, and the number is free.
fn can_be_added(tab: &Tab, frame: u8, parent: u8) -> bool
    ensures { result
        ≡ (is_some (document_of parent tab.now) && is_none (document_of frame tab.now)) }
{
    tab.document(parent).is_some() && tab.document(frame).is_none()
}

// Whether a frame can go to another address: that is there, and is not the top.
fn can_be_navigated(tab: &Tab, frame: u8) -> bool
    ensures { result ≡ (not (frame == 0) && is_some (document_of frame tab.now)) }
{
    frame != 0 && tab.document(frame).is_some()
}
