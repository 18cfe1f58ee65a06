//! The list of frames of a tab.
ghost use Rattle.std.specs.Prelude.{◌≡◌, ◌<◌, ◌==◌, IfOk, MatchOption, map, reverse, true, false};
ghost use Rattle.std.specs.Prelude.{Some, length, find, option_map, option_copied, slice_get};
ghost use Rattle.std.specs.Prelude.{option_and_then, unwrap_or};
ghost use Rattle.std.specs.List.{list_all};
ghost use Rattle.origin_site.specs.Plain.{plain_origin};
ghost use Rattle.storage_key.specs.Plain.{plain_key};
ghost use Rattle.frame_tree.specs.Calls.{origin_of};
ghost use Rattle.frame_tree.specs.Kept.{kept_frame};
ghost use Rattle.frame_tree.specs.Places.{ArePlaces, IsPlaceOf};
ghost use Rattle.frame_tree.specs.Plain.{plain_chain_site, plain_document, plain_frame};
ghost use Rattle.frame_tree.specs.Tree.{IsLastFrame, IsTree, chain_back, document_of, has_frame};

use crate::Document;
use crate::document::copy_of_site;
use crate::keys::Loaded;
use agent_base::NoMemory;
use origin_site::{Origin, Site};
use std::alloc::Global;
use storage_key::StorageKey;

/// A frame of a tab, its parent and its document.
#[derive(Debug, Drop)]
pub struct Frame {
    pub frame: u8,
    pub parent: u8,
    pub loaded: Loaded,
}

impl Frame {
    /// The same frame, over memory of its own.
    pub fn copy(&self, alloc: Global) -> Result<Frame, NoMemory>
        ensures { IfOk result (λ frame. kept_frame frame ≡ kept_frame self.now) }
    {
        Ok(Frame {
            frame: self.frame,
            parent: self.parent,
            loaded: self.loaded.copy(alloc)?,
        })
    }
}

/// The place of a frame in the list.
pub fn place_of(frames: &[Frame], frame: u8) -> Option<usize>
    ensures place { MatchOption result (has_frame frame (map plain_frame frames.now) ≡ false)
        (λ place. (place < length frames.now)
        × (option_map (λ f. f.frame) (slice_get frames.now place) ≡ Some frame)) }
{
    for (place, f) in frames.iter().enumerate() {
        if f.frame == frame {
            return Some(place);
        }
    }
    None
}

/// A frame by its number.
pub fn frame_of(frames: &[Frame], frame: u8) -> Option<&Frame>
    ensures found { option_copied result ≡ find (λ f. f.frame == frame) frames.now }
    ensures document { option_map (λ f. plain_document f.loaded.document) (option_copied result)
        ≡ document_of frame (map plain_frame frames.now) }
{
    first_of(frames, frame)
}

// The first frame of a number.
fn first_of(frames: &[Frame], frame: u8) -> Option<&Frame>
    ensures found { option_copied result ≡ find (λ f. f.frame == frame) frames.now }
{
    frames.iter().find(|f| f.frame == frame)
}

/// The ancestor bit that is kept with a frame, set where there is none.
pub fn bit_of(frames: &[Frame], frame: u8) -> bool
    ensures bit { result
        ≡ unwrap_or
        (option_map (λ f. f.loaded.bit) (find (λ f. f.frame == frame) frames.now)) true }
{
    match frame_of(frames, frame) {
        Some(f) => f.loaded.bit,
        None => true,
    }
}

/// The storage key that is kept with a frame, if one was found.
pub fn key_of(found: Option<&Frame>) -> Option<&StorageKey>
    ensures key { option_map plain_key (option_copied result)
        ≡ option_and_then (λ f. option_map plain_key f.loaded.key) (option_copied found.entry) }
{
    match found {
        Some(f) => f.loaded.key.as_ref(),
        None => None,
    }
}

/// Whether there is a frame of this number.
pub fn has_frame(frames: &[Frame], frame: u8) -> bool
    ensures has { result ≡ has_frame frame (map plain_frame frames.now) }
{
    frame_of(frames, frame).is_some()
}

/// The document of a frame.
pub fn document_of(frames: &[Frame], frame: u8) -> Option<&Document>
    ensures document { option_map plain_document (option_copied result)
        ≡ document_of frame (map plain_frame frames.now) }
{
    match frame_of(frames, frame) {
        Some(f) => Some(&f.loaded.document),
        None => None,
    }
}

/// The highest number of a frame.
pub fn last_frame(frames: &[Frame]) -> u8
    requires top { has_frame 0 (map plain_frame frames.now) ≡ true }
    ensures last { IsLastFrame result (map plain_frame frames.now) }
{
    let mut last = 0u8;
    for f in frames {
        last = last.max(f.frame);
    }
    last
}

/// Copies of the sites of a frame's chain, from the top.
pub fn sites_of(alloc: Global, frames: &[Frame], frame: u8) -> Result<Vec<Option<Site>>, NoMemory>
    ensures sites { IfOk result (λ sites. map plain_chain_site sites.items
        ≡ map (λ f. f.document.site) (chain_back frame (reverse (map plain_frame frames.now)))) }
{
    match frames.split_last() {
        Some((newest, older)) if newest.frame == frame => {
            let mut sites = sites_of(alloc, older, newest.parent)?;
            let site = copy_of_site(alloc, &newest.loaded.document.site)?;
            let Ok(()) = sites.push(site) else {
                return Err(NoMemory);
            };
            Ok(sites)
        }
        Some((_, older)) => sites_of(alloc, older, frame),
        None => Ok(Vec::new(alloc)),
    }
}

/// Whether each document of a frame's chain has an https address.
pub fn is_https_chain(frames: &[Frame], frame: u8) -> bool
    ensures https { result ≡ list_all (λ f. f.document.address.https)
        (chain_back frame (reverse (map plain_frame frames.now))) }
{
    match frames.split_last() {
        Some((newest, older)) if newest.frame == frame => {
            newest.loaded.document.address.https && is_https_chain(older, newest.parent)
        }
        Some((_, older)) => is_https_chain(older, frame),
        None => true,
    }
}

/// The origin of a frame's document.
pub fn origin_of(frames: &[Frame], frame: u8) -> Option<&Origin>
    ensures origin { option_map plain_origin (option_copied result)
        ≡ origin_of frame (map plain_frame frames.now) }
{
    match document_of(frames, frame) {
        Some(document) => document.origin.as_ref(),
        None => None,
    }
}

/// Copies of frames, in their order.
pub fn copies_of(alloc: Global, frames: &[Frame]) -> Result<Vec<Frame>, NoMemory>
    ensures copies { IfOk result (λ copies. map kept_frame copies.items
        ≡ map kept_frame frames.now) }
{
    let mut copies = Vec::new(alloc);
    for f in frames {
        let Ok(()) = copies.push(f.copy(alloc)?) else {
            return Err(NoMemory);
        };
    }
    Ok(copies)
}

/// The frame of a number, which stands at this place if it is there.
pub fn frame_at(frames: &[Frame], place: usize, frame: u8) -> Option<&Frame>
    requires tree { IsTree (map plain_frame frames.now) }
    requires place { IsPlaceOf frame place (map plain_frame frames.now) }
    ensures found { option_copied result ≡ find (λ f. f.frame == frame) frames.now }
{
    match frames.get(place) {
        Some(f) if f.frame == frame => Some(f),
        _ => None,
    }
}

/// The place of each frame by its number. A number without a frame has any place.
pub fn places_of(frames: &[Frame]) -> [u8; 256]
    requires tree { IsTree (map plain_frame frames.now) }
    ensures places { ArePlaces result (map plain_frame frames.now) }
{
    let mut places = [0; 256];
    for (place, f) in frames.iter().enumerate() {
        let number = usize::from(f.frame);
        places[number] = place as u8;
    }
    places
}
