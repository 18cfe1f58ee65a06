//! Tabs.
ghost use Rattle.std.specs.Prelude.{◌≡◌, ◌≢◌, ◌==◌, ◌++◌, ◌∷◌, [], map, IfOk, OnErr, Err, Some};
ghost use Rattle.std.specs.Prelude.{true, length, take, ◌-◌};
ghost use Rattle.std.specs.Prelude.{option_copied, option_map, if◌then◌else◌};
ghost use Rattle.agent_base.specs.Answers.{Answers};
ghost use Rattle.origin_site.specs.Plain.{plain_address, plain_site};
ghost use Rattle.storage_key.specs.Context.{context_of};
ghost use Rattle.storage_key.specs.Plain.{plain_context, plain_key};
ghost use Rattle.frame_tree.specs.Calls.{IsDoneAt, activated, added, begins_with_site, consumed};
ghost use Rattle.frame_tree.specs.Calls.{flagged, is_active, is_https_chain, navigated, opened};
ghost use Rattle.frame_tree.specs.Calls.{sites_of, with_document, without};
ghost use Rattle.frame_tree.specs.Keys.{is_first_at, key_of_frame, sites};
ghost use Rattle.frame_tree.specs.Plain.{plain_chain_site, plain_document, plain_sandbox};
ghost use Rattle.frame_tree.specs.Tree.{IsChain, IsLastFrame, IsTree, chain_of};
ghost use Rattle.frame_tree.specs.Tree.{document_of, has_frame, top_site};

use crate::document::is_active_by;
use crate::frames::{
    Frame, copies_of, document_of, frame_of, has_frame, is_https_chain, key_of, last_frame,
    sites_of,
};
use crate::keys::Loaded;
use crate::marks::{drop_frames, flag, mark, put_document, unmark};
use crate::sets::{activated_with, frames_below, frames_from};
use crate::{Document, Sandbox};
use agent_base::NoMemory;
use origin_site::{Address, Site};
use std::alloc::Global;
use std::marker::Model;
use storage_key::{Context, StorageKey};
use suffix_list::SuffixList;

/// There is no frame of this number.
#[derive(Clone, Copy, Debug, PartialEq, Eq)]
pub struct NoFrame;

/// Why a call on the frames of a tab is refused.
#[derive(Clone, Copy, Debug, PartialEq, Eq)]
pub enum TreeFault {
    /// The frame, or the parent of a new one, is not there.
    NoFrame,
    /// The number of the new frame is taken.
    FrameExists,
    /// A growth of memory was refused.
    NoMemory,
}

impl From<NoMemory> for TreeFault {
    ghost use Rattle.std.specs.Prelude.{◌≡◌};
    ghost use Rattle.frame_tree.specs.declared.tab.TreeFault.TheVariants.{NoMemory};

    ghost from_gives = { λ _ e. e ≡ NoMemory };

    fn from(_: NoMemory) -> TreeFault {
        TreeFault::NoMemory
    }
}

/// The documents of a tab: the top, which is frame 0, and frames 1 to 255 below it.
#[derive(Debug, Drop)]
pub struct Tab {
    /// The site of the top document.
    pub(crate) top: Site,
    pub(crate) frames: Vec<Frame>,
    pub(crate) alloc: Global,
}

impl Model for Tab {
    ghost use Rattle.std.specs.Prelude.{List, map};
    ghost use Rattle.origin_site.specs.Plain.{plain_site};
    ghost use Rattle.frame_tree.specs.Kept.{IsSound, kept_frame};
    ghost use Rattle.frame_tree.specs.Plain.{plain_frame};
    ghost use Rattle.frame_tree.specs.Tree.{PlainFrame};

    ghost Value = { List PlainFrame };

    ghost view = { λ t. map plain_frame t.frames.items };

    ghost invariant = { λ t. IsSound (plain_site t.top) (map plain_frame t.frames.items)
        (map kept_frame t.frames.items) };
}

impl Tab {
    /// A tab with a top document and no other. A top is never sandboxed.
    pub fn new(alloc: Global, address: Address, list: &SuffixList) -> Result<Tab, NoMemory>
        ensures opened { IfOk result (λ tab. tab ≡ opened list.now.rules (plain_address address)) }
    {
        let document = Document::load(alloc, address, Sandbox::unrestricted(), false, list)?;
        let Some(site) = &document.site else {
            unreachable!()
        };
        let top = site.copy(alloc)?;
        let loaded = Loaded::below(alloc, &top, false, document)?;
        let mut frames = Vec::new(alloc);
        let first = Frame {
            frame: 0,
            parent: 0,
            loaded,
        };
        match frames.push(first) {
            Ok(()) => Ok(Tab { top, frames, alloc }),
            Err(_) => Err(NoMemory),
        }
    }

    /// The document of a frame.
    pub fn document(&self, frame: u8) -> Option<&Document>
        ensures document { option_map plain_document (option_copied result)
            ≡ document_of frame self.now }
        ensures tree { IsTree self.now }
    {
        document_of(self.frames.as_slice(), frame)
    }

    /// The highest number of a frame.
    pub fn last_frame(&self) -> u8
        ensures last { IsLastFrame result self.now }
    {
        last_frame(self.frames.as_slice())
    }

    /// The site of the top document.
    pub fn top_site(&self) -> &Site
        ensures site { top_site self.now ≡ Some (plain_site result.now) }
        ensures tree { IsTree self.now }
    {
        &self.top
    }

    /// The storage key of a frame's document. None where the frame is not there or its document is
    /// opaque.
    pub fn key(&self, frame: u8) -> Option<&StorageKey>
        ensures key { option_map plain_key (option_copied result) ≡ key_of_frame frame self.now }
    {
        key_of(frame_of(self.frames.as_slice(), frame))
    }

    /// Whether a frame is there and what is at the URL's site is first party below its chain.
    pub fn first_party(&self, frame: u8, url: &Site) -> bool
        ensures first { result ≡ is_first_at frame self.now (plain_site url.now) }
    {
        match frame_of(self.frames.as_slice(), frame) {
            Some(f) => f.loaded.is_first(&self.top, url),
            None => false,
        }
    }

    /// The sites of the documents from the top to a frame's.
    pub fn chain(&self, frame: u8) -> Result<Vec<Option<Site>>, TreeFault>
        ensures chain { Answers (λ sites. map plain_chain_site sites.items) TreeFault.NoMemory
            (sites_of frame self.now) result }
        ensures decided { (why : TreeFault) → sites_of frame self.now ≡ Err why → result ≡ Err why }
        ensures law { IfOk result (λ _. IsChain frame self.now (chain_of frame self.now)) }
        ensures top { IfOk result (λ sites.
            begins_with_site (map plain_chain_site sites.items) ≡ true) }
        ensures site { IfOk result (λ _. top_site (chain_of frame self.now) ≡ top_site self.now) }
    {
        if !has_frame(self.frames.as_slice(), frame) {
            return Err(TreeFault::NoFrame);
        }
        Ok(sites_of(self.alloc, self.frames.as_slice(), frame)?)
    }

    /// The context of a load below the parent of a frame: by the frame's chain without its own
    /// document.
    pub fn context_above(&self, frame: u8, target: &Site) -> Result<Context, NoMemory>
        requires there { has_frame frame self.now ≡ true }
        ensures context { let chain = chain_of frame self.now in
            let above = sites (take (length chain - 1) chain) in
            IfOk result (λ context. plain_context context
            ≡ context_of above (plain_site target.now)) }
    {
        match self.chain(frame) {
            Ok(chain) => Ok(Context::of(above(chain.as_slice()), target)),
            Err(_) => Err(NoMemory),
        }
    }

    /// Whether a frame is there and each document from the top to it has an https address.
    pub fn https_chain(&self, frame: u8) -> bool
        ensures https { result ≡ is_https_chain frame self.now }
    {
        has_frame(self.frames.as_slice(), frame) && is_https_chain(self.frames.as_slice(), frame)
    }

    /// Whether a frame is there and its document was activated less than five seconds ago.
    pub fn is_active(&self, frame: u8, now: i64) -> bool
        ensures active { result ≡ is_active frame now self.now }
    {
        match self.document(frame) {
            Some(document) => is_active_by(now, document.mark),
            None => false,
        }
    }

    /// Adds a frame below a parent. `sandbox` and `deny` are the frame's own; its document has each
    /// restriction of the parent's too.
    pub fn add(
        &mut self,
        parent: u8,
        frame: u8,
        address: Address,
        sandbox: Sandbox,
        deny: bool,
        list: &SuffixList,
    ) -> Result<(), TreeFault>
        ensures answer { Answers (λ _. self.new) TreeFault.NoMemory
            (added list.now.rules parent frame (plain_address address) (plain_sandbox sandbox) deny
            self.old) result }
        ensures decided { (why : TreeFault) → added list.now.rules parent frame
            (plain_address address) (plain_sandbox sandbox) deny self.old ≡ Err why
            → result ≡ Err why }
        ensures site { top_site self.new ≡ top_site self.old }
        ensures tree { IsTree self.new }
        ensures unchanged { OnErr result (self.new ≡ self.old) }
    {
        let fresh = self.below(parent, frame, address, sandbox, deny, list)?;
        let Ok(()) = self.frames.push(fresh) else {
            return Err(TreeFault::NoMemory);
        };
        Ok(())
    }

    /// Loads a document into a frame that is not the top, and removes the frames below it. The
    /// frame keeps its sandbox and policy. The flag of the present document is kept or goes.
    pub fn navigate(
        &mut self,
        frame: u8,
        address: Address,
        keep_flag: bool,
        list: &SuffixList,
    ) -> Result<(), TreeFault>
        requires { frame ≢ 0 }
        ensures answer { Answers (λ _. self.new) TreeFault.NoMemory
            (navigated list.now.rules frame (plain_address address) keep_flag self.old) result }
        ensures decided { (why : TreeFault) → navigated list.now.rules frame
            (plain_address address) keep_flag self.old ≡ Err why → result ≡ Err why }
        ensures site { top_site self.new ≡ top_site self.old }
        ensures tree { IsTree self.new }
        ensures unchanged { OnErr result (self.new ≡ self.old) }
    {
        let made = self.loaded_instead(frame, address, keep_flag, list)?;
        let below = frames_below(self.frames.as_slice(), frame);
        drop_frames(&mut self.frames, &below);
        put_document(&mut self.frames, frame, made);
        Ok(())
    }

    /// Removes a frame that is not the top, and those below it.
    pub fn remove(&mut self, frame: u8) -> Result<(), NoFrame>
        requires { frame ≢ 0 }
        ensures removed { IsDoneAt frame self.old self.new (without frame self.old) result }
        ensures site { top_site self.new ≡ top_site self.old }
        ensures tree { IsTree self.new }
    {
        if !has_frame(self.frames.as_slice(), frame) {
            return Err(NoFrame);
        }
        let gone = frames_from(self.frames.as_slice(), frame);
        drop_frames(&mut self.frames, &gone);
        Ok(())
    }

    /// Marks a document, its ancestors and its descendants of the same origin as activated at this
    /// moment.
    pub fn activate(&mut self, frame: u8, now: i64) -> Result<(), NoFrame>
        ensures activated { IsDoneAt frame self.old self.new (activated frame now self.old) result }
        ensures site { top_site self.new ≡ top_site self.old }
        ensures tree { IsTree self.new }
    {
        if !has_frame(self.frames.as_slice(), frame) {
            return Err(NoFrame);
        }
        let reached = activated_with(self.frames.as_slice(), frame);
        mark(&mut self.frames, &reached, Some(now));
        Ok(())
    }

    /// Gives the document of a frame storage access.
    pub fn set_flag(&mut self, frame: u8) -> Result<(), NoFrame>
        ensures flagged { IsDoneAt frame self.old self.new
            (with_document frame flagged self.old) result }
        ensures site { top_site self.new ≡ top_site self.old }
        ensures tree { IsTree self.new }
    {
        if !has_frame(self.frames.as_slice(), frame) {
            return Err(NoFrame);
        }
        flag(&mut self.frames, frame);
        Ok(())
    }

    /// Takes the activation of every document of the tab.
    pub fn consume(&mut self)
        ensures consumed { self.new ≡ consumed self.old }
        ensures site { top_site self.new ≡ top_site self.old }
        ensures tree { IsTree self.new }
    {
        unmark(&mut self.frames);
    }

    /// The same tab, over memory of its own.
    pub fn copy(&self) -> Result<Tab, NoMemory>
        ensures same { IfOk result (λ tab. tab ≡ self.now) }
    {
        Ok(Tab {
            top: self.top.copy(self.alloc)?,
            frames: copies_of(self.alloc, self.frames.as_slice())?,
            alloc: self.alloc,
        })
    }
}

// A chain without its last document.
fn above(chain: &[Option<Site>]) -> &[Option<Site>]
    ensures { result.now ≡ take (length chain.now - 1) chain.now }
{
    &chain[..chain.len().saturating_sub(1)]
}
