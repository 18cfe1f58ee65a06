//! Reads the frames of a region, in order.
ghost use Rattle.std.specs.Prelude.{◌≡◌, ◌+◌, ◌<◌, ◌≤◌, if◌then◌else◌, List, ℕ, length};
ghost use Rattle.std.specs.Prelude.{slice_index, true, Ok, Err, None, Some, IfOk};
ghost use Rattle.disk_model.specs.Disk.{Holds};
ghost use Rattle.journal.specs.Frame.{Frame, AreSound, frames_len, base_of};
ghost use Rattle.journal.specs.Store.{IsClosed, FramesAt};
ghost use Rattle.journal.specs.Frame.{region_digest};
ghost use Rattle.journal.specs.Region.{IsFaultAt, IsFault, Runs};
ghost use Rattle.journal.specs.ReaderAnswers.{IsTaken};
ghost use Rattle.journal.specs.declared.region.RegionFault.TheVariants.{NotAStore};
ghost use Rattle.journal.specs.declared.region.Taken.{Taken};

use crate::fields::{Read, frame_at};
use crate::head::digest_at;
use crate::replay::{Replay, ReplayFault};

/// Why a region was not read: its first fault, or want of memory.
#[derive(Clone, Copy)]
pub enum RegionFault {
    NotAStore(usize),
    NoMemory,
}

/// A frame that was taken. `size` is that of its digest and its body.
#[derive(Clone, Copy)]
pub struct Taken {
    pub snapshot: bool,
    pub last: u64,
    pub size: usize,
    pub changes: u64,
}

// One frame, or the end of the region.
fn take_frame<R: Replay>(
    bytes: &[u8],
    at: usize,
    fresh: bool,
    last: u64,
    into: &mut R,
) -> Result<Option<Taken>, RegionFault>
    ensures end { result ≡ Ok None → IsClosed bytes.now at × (R.state into.new ≡ R.state into.old) }
    ensures taken { (t : Taken) → result ≡ Ok (Some t)
        → IsTaken (R.takes (R.rules into.old)) bytes.now at fresh (R.state into.old)
        (R.state into.new) last t }
    ensures bad { (o : ℕ) → result ≡ Err (NotAStore o)
        → IsFaultAt (R.takes (R.rules into.old)) (R.refuses (R.rules into.old)) bytes.now at fresh
        (R.state into.old) last o }
    ensures rules { R.rules into.new ≡ R.rules into.old }
{
    match frame_at(bytes, at, fresh) {
        Read::End => Ok(None),
        Read::Cut => Err(RegionFault::NotAStore(at)),
        Read::Kind => Err(RegionFault::NotAStore(at + 1)),
        Read::Short => Err(RegionFault::NotAStore(at + 10)),
        Read::Whole {
            snapshot,
            last: next,
            list,
            size,
        } => {
            let begin = at + 18 + list;
            let body = &bytes[begin..at + 18 + size];
            match into.frame(snapshot, body) {
                Ok(changes) => {
                    if !snapshot && next != last.wrapping_add(changes) {
                        return Err(RegionFault::NotAStore(at + 2));
                    }
                    Ok(Some(Taken {
                        snapshot,
                        last: next,
                        size,
                        changes,
                    }))
                }
                Err(ReplayFault::Bad(offset)) => {
                    Err(RegionFault::NotAStore(begin + offset as usize))
                }
                Err(ReplayFault::NoMemory) => Err(RegionFault::NoMemory),
            }
        }
    }
}

/// Where a region ends, with the number of its last frame and that of its snapshot.
#[derive(Clone, Copy)]
pub struct Region {
    pub end: usize,
    pub last: u64,
    pub base: u64,
}

// The number when the region began, after one frame more.
fn base_after(base: u64, taken: &Taken) -> u64
    ensures { result ≡ (if taken.now.snapshot then taken.now.last else base) }
{
    if taken.snapshot { taken.last } else { base }
}

/// Gives the frames of a region to `into`, in order.
pub fn read_region<R: Replay>(
    bytes: &[u8],
    begin: usize,
    into: &mut R,
) -> Result<Region, RegionFault>
    ensures frames { IfOk result (λ r. (frames : List Frame) × FramesAt bytes.now begin frames
        × AreSound bytes.now frames
        × Runs (R.takes (R.rules into.old)) true R.empty 0 frames (R.state into.new) r.last
        × (r.end ≡ begin + frames_len frames) × (r.base ≡ base_of frames)) }
    ensures bad { (o : ℕ) → result ≡ Err (NotAStore o)
        → IsFault (R.takes (R.rules into.old)) (R.refuses (R.rules into.old)) bytes.now begin
        R.empty o }
    ensures rules { R.rules into.new ≡ R.rules into.old }
{
    into.begin();
    let mut at = begin;
    let mut last = 0;
    let mut base = 0;
    let mut fresh = true;
    while let Some(taken) = take_frame(bytes, at, fresh, last, into)? {
        at += 18 + taken.size;
        last = taken.last;
        base = base_after(base, &taken);
        fresh = false;
    }
    Ok(Region {
        end: at,
        last,
        base,
    })
}

/// The digest of the list under which a region stands: that which its snapshot names, and else that
/// of the head.
pub fn region_digest(bytes: &[u8], begin: usize) -> [u8; 32]
    requires long { 129 ≤ length bytes.now }
    requires region { (frames : List Frame) × FramesAt bytes.now begin frames
        × AreSound bytes.now frames }
    ensures len { length result ≡ 32 }
    ensures digest { (kept : List ℕ) (frames : List Frame) → length kept ≡ 32
        → Holds bytes.now 12 kept → FramesAt bytes.now begin frames → AreSound bytes.now frames
        → result ≡ region_digest kept frames }
{
    if bytes[begin] != 0 && bytes[begin + 1] == 3 {
        digest_at(bytes, begin + 18)
    } else {
        digest_at(bytes, 12)
    }
}
