//! What is held for all sites, and how a line finds tabs and documents there. What lines do with it
//! stands in the modules below, one for each group of actions.
ghost use Rattle.std.specs.Prelude.{◌≡◌, [], IfOk, OnErr, Some, is_some, option_map, true};
ghost use Rattle.origin_site.specs.Plain.{plain_site};
ghost use Rattle.frame_tree.specs.Calls.{is_https_chain};
ghost use Rattle.frame_tree.specs.Document.{PlainDocument};
ghost use Rattle.frame_tree.specs.Tree.{has_frame};
ghost use Rattle.live_state.specs.Queues.{has_document};
ghost use Rattle.live_state.specs.Tabs.{PlainTab, is_open, tab_at};
ghost use Rattle.script_actions.specs.Plain.{action_of};
ghost use Rattle.agent_model.specs.Effects.{no_shared_cells};
ghost use Rattle.agent_model.specs.Lines.{site_at};
ghost use Rattle.agent_model.specs.Partition.{no_holdings};
ghost use Rattle.agent_memory.specs.AgentState.{places_in};
ghost use Rattle.agent_memory.specs.Documents.{IsFound, document_at, key_wanted};
ghost use Rattle.agent_memory.specs.HoldingsView.{cells_of, held_of};
ghost use Rattle.agent_memory.specs.Lines.{is_there};

mod access;
mod acts;
mod areas;
mod cookies;
mod events;
mod frames;
mod loads;
mod persistence;
mod requests;

use access_grants::Grants;
use agent_base::{Label, NoMemory};
use frame_tree::Tab;
use live_state::Live;
use origin_site::Site;
use std::alloc::Global;
use std::marker::Model;
use storage_key::StorageKey;
use web_cookies::{Cookies, LineInput};
use web_storage::Storage;

/// What is held for all sites: the open tabs, the storage, the cookies and the permissions of
/// storage access.
#[derive(Debug, Drop)]
pub struct Holdings {
    pub live: Live,
    pub storage: Storage,
    pub cookies: Cookies,
    pub grants: Grants,
}

impl Model for Holdings {
    ghost use Rattle.agent_memory.specs.FrameTrees.{AreTrees};
    ghost use Rattle.agent_memory.specs.HoldingsView.{HoldingsView};

    ghost Value = { HoldingsView };

    ghost view = { λ h. record {
      live = h.live;
      storage = h.storage;
      cookies = h.cookies;
      grants = h.grants.rows;
    } };

    ghost invariant = { λ h. AreTrees h.live.tabs };
}

impl Holdings {
    /// No tab, no storage, no cookies and no permissions.
    pub fn new(alloc: Global) -> Holdings
        ensures tabs { result.live.tabs ≡ [] }
        ensures held { held_of result ≡ no_holdings }
        ensures cells { cells_of result ≡ no_shared_cells }
    {
        Holdings {
            live: Live::new(alloc),
            storage: Storage::new(alloc),
            cookies: Cookies::new(alloc),
            grants: Grants::new(alloc),
        }
    }

    /// What is durable, and no tab.
    pub fn resume(alloc: Global, storage: Storage, cookies: Cookies, grants: Grants) -> Holdings
        ensures tabs { result.live.tabs ≡ [] }
        ensures storage { result.storage ≡ storage }
        ensures cookies { result.cookies ≡ cookies }
        ensures grants { result.grants ≡ grants.rows }
    {
        Holdings {
            live: Live::new(alloc),
            storage,
            cookies,
            grants,
        }
    }

    /// Whether a tab is open.
    pub fn is_open(&self, tab: u16) -> bool
        ensures open { result ≡ is_open tab self.now.live.tabs }
    {
        self.live.tab(tab).is_some()
    }

    /// Whether the opener of a tab is open, if it has one.
    pub fn is_there(&self, opener: Option<u16>) -> bool
        ensures there { result ≡ is_there opener self.now.live.tabs }
    {
        match opener {
            Some(opener) => self.is_open(opener),
            None => true,
        }
    }

    /// The site that a tab is at, where it is open.
    pub fn site(&self, input: &LineInput<'_>, tab: u16) -> Result<Option<Site>, NoMemory>
        ensures site { let place = site_at tab (places_in self.now.live.tabs) in
            IfOk result (λ site. option_map plain_site site ≡ place) }
        ensures memory { let place = site_at tab (places_in self.now.live.tabs) in
            OnErr result (is_some place ≡ true) }
    {
        match self.live.tab(tab) {
            Some(found) => Ok(Some(found.top_site().copy(input.alloc)?)),
            None => Ok(None),
        }
    }

    /// The documents of a tab that is open.
    pub fn tab(&self, tab: u16) -> &Tab
        requires { is_open tab self.now.live.tabs ≡ true }
        ensures tab { option_map (λ t. t.frames) (tab_at tab self.now.live.tabs) ≡ Some result.now }
    {
        open_tab(&self.live, tab)
    }

    /// The URL of a document that is there.
    pub fn url(&self, at: Label) -> &str
        requires { has_document self.now.live.tabs at ≡ true }
        ensures url { (document : PlainDocument) → document_at at self.now.live.tabs ≡ Some document
            → result.now ≡ document.address.text }
    {
        match self.tab(at.tab).document(at.frame) {
            Some(document) => document.address.text.as_str(),
            None => unreachable!(),
        }
    }

    /// Whether a document of an open tab is there.
    pub fn has_document(&self, at: Label) -> bool
        requires { is_open at.tab self.now.live.tabs ≡ true }
        ensures there { result ≡ has_document self.now.live.tabs at }
    {
        has_frame(self.tab(at.tab), at.frame)
    }

    /// Whether each document from the top to this one is https: what is for secure contexts alone
    /// asks it behind its key, and before all else.
    pub fn is_secure(&self, at: Label) -> bool
        requires { is_open at.tab self.now.live.tabs ≡ true }
        ensures secure { (tab : PlainTab) → tab_at at.tab self.now.live.tabs ≡ Some tab
            → result ≡ is_https_chain at.frame tab.frames }
    {
        self.tab(at.tab).https_chain(at.frame)
    }
}

/// The documents of a tab that is open.
pub fn open_tab(live: &Live, tab: u16) -> &Tab
    requires { is_open tab live.now.tabs ≡ true }
    ensures tab { option_map (λ t. t.frames) (tab_at tab live.now.tabs) ≡ Some result.now }
{
    match live.tab(tab) {
        Some(found) => found,
        None => unreachable!(),
    }
}

/// Whether a frame of a tab is there.
pub fn has_frame(tab: &Tab, frame: u8) -> bool
    ensures there { result ≡ has_frame frame tab.now }
{
    tab.document(frame).is_some()
}

/// What a line finds that names a document and wants its storage key.
#[derive(Clone, Copy, Debug)]
pub enum Found<'a> {
    /// The frame is not there.
    NoFrame,
    /// The origin of the document is opaque, and it has no key.
    Opaque,
    /// The document has this key.
    Keyed(&'a StorageKey),
}

/// The storage key of a frame's document.
pub fn key_at(tab: &Tab, frame: u8) -> Found<'_>
    ensures found { IsFound (key_wanted frame tab.now) result }
{
    match tab.key(frame) {
        Some(key) => Found::Keyed(key),
        None => match tab.document(frame) {
            Some(_) => Found::Opaque,
            None => Found::NoFrame,
        },
    }
}
