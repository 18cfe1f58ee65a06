//! Changes of the list of frames by sets of them.
ghost use Rattle.std.specs.Prelude.{◌≡◌, ◌==◌, None, true, filter, map, not, false};
ghost use Rattle.std.specs.Prelude.{slice_index_or, if◌then◌else◌};
ghost use Rattle.frame_tree.specs.Calls.{flagged, is_activated, origin_of, with_mark};
ghost use Rattle.frame_tree.specs.Kept.{kept_document, kept_frame, kept_instead, kept_with};
ghost use Rattle.frame_tree.specs.Plain.{plain_frame};
ghost use Rattle.frame_tree.specs.Tree.{IsTree, has_frame};

use crate::frames::{Frame, place_of};
use crate::keys::Loaded;

/// Drops the frames of a set.
pub fn drop_frames(frames: &mut Vec<Frame>, gone: &[bool; 256])
    ensures dropped { frames.new.items
        ≡ filter (λ f. not (slice_index_or gone.now f.frame false)) frames.old.items }
{
    frames.retain(|f| !gone[usize::from(f.frame)]);
}

/// Gives the documents of a set this moment of their activation.
pub fn mark(frames: &mut Vec<Frame>, set: &[bool; 256], moment: Option<i64>)
    ensures marked { map kept_frame frames.new.items
        ≡ map (λ k. if slice_index_or set.now k.plain.frame false
        then kept_with (with_mark moment) k else k)
        (map kept_frame frames.old.items) }
{
    for f in frames.iter_mut() {
        if set[usize::from(f.frame)] {
            f.loaded.document.mark = moment;
        }
    }
}

/// Gives the document of a frame storage access.
pub fn flag(frames: &mut Vec<Frame>, frame: u8)
    ensures flagged { map kept_frame frames.new.items
        ≡ map (λ k. if k.plain.frame == frame then kept_with flagged k else k)
        (map kept_frame frames.old.items) }
{
    for f in frames.iter_mut() {
        flag_at(f, frame);
    }
}

// Gives the document of a frame storage access, if the frame has this number.
fn flag_at(f: &mut Frame, frame: u8)
    ensures flagged { kept_frame f.new
        ≡ (if f.old.frame == frame then kept_with flagged (kept_frame f.old)
        else kept_frame f.old) }
{
    if f.frame == frame {
        f.loaded.document.flag = true;
    }
}

/// Puts a document into a frame that is there.
pub fn put_document(frames: &mut Vec<Frame>, frame: u8, made: Loaded)
    requires tree { IsTree (map plain_frame frames.old.items) }
    requires there { has_frame frame (map plain_frame frames.old.items) ≡ true }
    ensures put { map kept_frame frames.new.items
        ≡ map (λ k. if k.plain.frame == frame then kept_instead (kept_document made) k else k)
        (map kept_frame frames.old.items) }
{
    match place_of(frames.as_slice(), frame) {
        Some(place) => frames[place].loaded = made,
        None => {}
    }
}

/// Takes the activation of each document.
pub fn unmark(frames: &mut Vec<Frame>)
    ensures unmarked { map kept_frame frames.new.items
        ≡ map (kept_with (with_mark None)) (map kept_frame frames.old.items) }
{
    for f in frames.iter_mut() {
        f.loaded.document.mark = None;
    }
}
