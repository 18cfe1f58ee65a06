//! What the frames that the calls speak of stand for, by the meaning that a `Replay` gives to
//! bodies, and what the cuts to come say of an opening.
// Each function is one law: it does nothing, and its clause is proved.
ghost use Rattle.std.specs.Prelude.{◌≡◌, ◌⊎◌, ◌+◌, ◌-◌, ◌%◌, ◌^◌, ◌<◌, List, [], ℕ, length, true};
ghost use Rattle.std.specs.Prelude.{Bool, Result, Some, false, slice_index};
ghost use Rattle.disk_model.specs.Disk.{Makes};
ghost use Rattle.journal.specs.Frame.{Frame, base_of};
ghost use Rattle.journal.specs.Store.{IsStore, IsUnborn};
ghost use Rattle.journal.specs.Region.{Runs, HasChanges, StandsForState};
ghost use Rattle.journal.specs.Opening.{AnswersByCuts, FileMeans, IsOfFile, IsOpening, IsRefusal};
ghost use Rattle.journal.specs.Opening.{IsUpgrade, IsWithin, Opens};
ghost use Rattle.journal.specs.Journal.{IsBeforeOrAfter, IsBeforeOrSnapshot};
ghost use Rattle.journal.specs.declared.open_fault.OpenFault.{OpenFault};

use crate::replay::Replay;
use disk_model::Disk;

/// A file has one list of frames, under one list's digest.
pub fn one_list_of_frames()
    ensures law { (digest other file : List ℕ) (frames others : List Frame)
        → IsStore digest file frames → IsStore other file others
        → (frames ≡ others) × (digest ≡ other) }
{}

/// A store of version 1 of which at most the version's byte has changed has the same frames, under
/// the same digest.
pub fn upgrade_keeps()
    ensures law { (digest old new : List ℕ) (frames : List Frame) → IsStore digest old frames
        → IsUpgrade old new → IsStore digest new frames }
{}

/// A file stands for one state and one number of changes, and a store under one list's digest.
pub fn one_meaning<R: Replay>()
    ensures law { (by : R.Rules) (digest other file : List ℕ) (s t : R.State) (m n : ℕ)
        → FileMeans (R.takes by) R.empty digest file s m
        → FileMeans (R.takes by) R.empty other file t n → (s ≡ t) × (m ≡ n) }
    ensures list { (by : R.Rules) (digest other file : List ℕ) (s t : R.State) (m n : ℕ)
        → FileMeans (R.takes by) R.empty digest file s m
        → FileMeans (R.takes by) R.empty other file t n → (digest ≡ other) ⊎ IsUnborn file }
{}

/// A file of bytes stands for something, under some list, or it has a first fault, for which an
/// opening refuses it.
pub fn one_verdict<R: Replay>()
    ensures law { (by : R.Rules) (limited : Bool) (file : List ℕ)
        → ((i : ℕ) → slice_index file i < 256)
        → ((digest : List ℕ) × (s : R.State) × (n : ℕ)
        × FileMeans (R.takes by) R.empty digest file s n)
        ⊎ ((why : OpenFault) × IsOfFile why
        × IsRefusal (R.takes by) (R.refuses by) R.empty limited file why) }
    ensures apart { (by : R.Rules) (limited : Bool) (digest file : List ℕ) (s : R.State) (n : ℕ)
        (why : OpenFault) → IsWithin limited file
        → FileMeans (R.takes by) R.empty digest file s n → IsOfFile why
        → IsRefusal (R.takes by) (R.refuses by) R.empty limited file why → ⊥ }
{}

/// What a cut during an opening leaves stands for the same under the same list, but that an unborn
/// file may have become a store under the given one.
pub fn opening_meaning<R: Replay>()
    ensures law { (by : R.Rules) (digest given old new : List ℕ) (s : R.State) (n : ℕ)
        → FileMeans (R.takes by) R.empty digest old s n → IsOpening given old new
        → FileMeans (R.takes by) R.empty digest new s n
        ⊎ (IsUnborn old × FileMeans (R.takes by) R.empty given new s n) }
{}

/// A store from before or after a commit stands for the state from before or after, where the body
/// leads from the one to the other by so many changes.
pub fn commit_meaning<R: Replay>()
    ensures law { (by : R.Rules) (digest file body : List ℕ) (frames : List Frame) (s t : R.State)
        (last changes : ℕ)
        → Runs (R.takes by) true R.empty 0 frames s last → 0 < length body
        → R.takes by s false body t changes
        → IsBeforeOrAfter digest frames
        (record {
          snapshot = false;
          last = (last + changes) % 2 ^ 64;
          list = [];
          body = body;
        }) file
        → StandsForState (R.takes by) R.empty digest file s last
        ⊎ StandsForState (R.takes by) R.empty digest file t ((last + changes) % 2 ^ 64) }
{}

/// A store from before or after a checkpoint stands for the state from before under the digest
/// from before, or for the state that the body is a snapshot of under the new one, after as many
/// changes.
pub fn checkpoint_meaning<R: Replay>()
    ensures law { (by : R.Rules) (digest given file body : List ℕ) (frames : List Frame)
        (s t : R.State) (last changes : ℕ)
        → Runs (R.takes by) true R.empty 0 frames s last → R.takes by R.empty true body t changes
        → IsBeforeOrSnapshot digest frames
        (record { snapshot = true; last = last; list = given; body = body }) file
        → StandsForState (R.takes by) R.empty digest file s last
        ⊎ StandsForState (R.takes by) R.empty given file t last }
{}

/// What `since` answers is the number of the changes in the frames that are no snapshot.
pub fn since_meaning<R: Replay>()
    ensures law { (by : R.Rules) (frames : List Frame) (s : R.State) (last total : ℕ)
        → Runs (R.takes by) true R.empty 0 frames s last
        → base_of frames < 2 ^ 64 → HasChanges (R.takes by) R.empty frames total
        → (last + (2 ^ 64 - base_of frames)) % 2 ^ 64 ≡ total % 2 ^ 64 }
{}

/// Where a disk tells its cuts and its power is on, they say whether an opening may be `Ok`.
pub fn opening_cuts<D: Disk, T>()
    ensures law { (old new : D) (result : Result T OpenFault) (calls : ℕ) (cuts : List ℕ)
        → Opens result (D.view old) (D.view new) → Makes calls result (D.view old) (D.view new)
        → (D.view old).off ≡ false → (D.view old).cuts ≡ Some cuts
        → AnswersByCuts result (D.view old).changing calls cuts }
{}
