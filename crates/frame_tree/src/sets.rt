//! Sets of frames, as a truth value at each number.
ghost use Rattle.std.specs.Prelude.{◌≡◌, ◌<◌, ◌==◌, ◌&&◌, ◌||◌, ℕ, false, slice_index_or};
ghost use Rattle.std.specs.Prelude.{slice_set};
ghost use Rattle.std.specs.Prelude.{length, map, not, reverse, option_copied, option_map};
ghost use Rattle.origin_site.specs.Plain.{plain_origin};
ghost use Rattle.frame_tree.specs.Calls.{is_activated, origin_of};
ghost use Rattle.frame_tree.specs.Document.{same_document_origin};
ghost use Rattle.frame_tree.specs.Plain.{plain_frame};
ghost use Rattle.frame_tree.specs.Sets.{IsSetOf, found};
ghost use Rattle.frame_tree.specs.Tree.{chain_back, has_frame, is_on_chain};

use crate::document::same_document_origin;
use crate::frames::{Frame, origin_of};
use origin_site::Origin;

/// The frames at and below a frame.
pub fn frames_from(frames: &[Frame], frame: u8) -> [bool; 256]
    ensures set { IsSetOf (λ n. is_on_chain frame n (map plain_frame frames.now)) result }
{
    let mut from = [false; 256];
    for f in frames {
        let is = is_from(f, frame, &from);
        put(&mut from, f.frame, is);
    }
    from
}

/// The frames below a frame.
pub fn frames_below(frames: &[Frame], frame: u8) -> [bool; 256]
    ensures set { (n : ℕ) → not (slice_index_or result n false)
        ≡ (n == frame || not (is_on_chain frame n (map plain_frame frames.now))) }
{
    let mut below = frames_from(frames, frame);
    put(&mut below, frame, false);
    below
}

// Puts a frame into a set, or takes it out.
fn put(set: &mut [bool; 256], frame: u8, is: bool)
    ensures put { set.new ≡ slice_set set.old frame is }
    ensures low { frame < length set.old }
{
    set[usize::from(frame)] = is;
}

// Whether a frame is at or below another, where its parent is in the set if it is.
fn is_from(f: &Frame, frame: u8, from: &[bool; 256]) -> bool
    ensures { result ≡ (f.now.frame == frame || slice_index_or from.now f.now.parent false) }
{
    f.frame == frame || from[usize::from(f.parent)]
}

/// The frames that are activated with a frame.
pub fn activated_with(frames: &[Frame], frame: u8) -> [bool; 256]
    ensures set { let plain = map plain_frame frames.now in
        let passes = is_activated frame (origin_of frame plain) plain in
        IsSetOf (λ n. found passes n (reverse (map plain_frame frames.now))) result }
{
    activated_by(frames, frame, origin_of(frames, frame))
}

// The frames that are activated with a frame of this origin.
fn activated_by(frames: &[Frame], frame: u8, origin: Option<&Origin>) -> [bool; 256]
    ensures set { let origin = option_map plain_origin (option_copied origin.entry) in
        let passes = is_activated frame origin (map plain_frame frames.now) in
        IsSetOf (λ n. found passes n (reverse (map plain_frame frames.now))) result }
{
    let above = frames_above(frames, frame);
    let from = frames_from(frames, frame);
    let mut set = [false; 256];
    for f in frames {
        let is = is_activated(f, &above, &from, origin);
        put(&mut set, f.frame, is);
    }
    set
}

// Whether a frame is in the set above, or is in the set from the frame and has its origin.
fn is_activated(f: &Frame, above: &[bool; 256], from: &[bool; 256], origin: Option<&Origin>) -> bool
    ensures { result ≡ (slice_index_or above.now f.now.frame false
        || (slice_index_or from.now f.now.frame false
        && same_document_origin (option_map plain_origin (option_copied origin.entry))
        (plain_frame f.now).document.origin)) }
{
    let place = usize::from(f.frame);
    above[place] || (from[place] && same_document_origin(origin, &f.loaded.document.origin))
}

/// The frames of a frame's chain.
pub fn frames_above(frames: &[Frame], frame: u8) -> [bool; 256]
    ensures set { IsSetOf (λ n. is_on_chain n frame (map plain_frame frames.now)) result }
{
    let mut above = [false; 256];
    put_chain(frames, frame, &mut above);
    above
}

// Puts the frames of a chain into a set.
fn put_chain(frames: &[Frame], frame: u8, set: &mut [bool; 256])
    ensures put { (n : ℕ) → slice_index_or set.new n false ≡ (slice_index_or set.old n false
        || has_frame n (chain_back frame (reverse (map plain_frame frames.now)))) }
    ensures length { length set.new ≡ length set.old }
{
    match frames.split_last() {
        Some((newest, older)) if newest.frame == frame => {
            put(set, frame, true);
            put_chain(older, newest.parent, set);
        }
        Some((_, older)) => put_chain(older, frame, set),
        None => {}
    }
}
