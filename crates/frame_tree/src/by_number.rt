//! The frames of a tab by their numbers.
ghost use Rattle.std.specs.Prelude.{◌≡◌, option_copied, option_map};
ghost use Rattle.storage_key.specs.Plain.{plain_key};
ghost use Rattle.frame_tree.specs.Keys.{key_of_frame};
ghost use Rattle.frame_tree.specs.Tree.{IsLastFrame};

use crate::Tab;
use crate::frames::{frame_at, key_of, places_of};
use std::marker::Model;
use storage_key::StorageKey;

/// The frames of a tab, each of which is found by its number without a walk over the others.
#[derive(Debug, Drop)]
pub struct ByNumber<'a> {
    tab: &'a Tab,
    places: [u8; 256],
}

impl<'a> Model for ByNumber<'a> {
    ghost use Rattle.std.specs.Prelude.{List};
    ghost use Rattle.frame_tree.specs.Places.{ArePlaces};
    ghost use Rattle.frame_tree.specs.Tree.{PlainFrame};

    ghost Value = { List PlainFrame };

    ghost view = { λ b. b.tab.now };

    ghost invariant = { λ b. ArePlaces b.places b.tab.now };
}

impl Tab {
    /// The frames by their numbers. It costs one walk over them.
    pub fn by_number(&self) -> ByNumber<'_>
        ensures same { result ≡ self.now }
    {
        ByNumber {
            tab: self,
            places: places_of(self.frames.as_slice()),
        }
    }
}

impl ByNumber<'_> {
    /// The highest number of a frame.
    pub fn last_frame(&self) -> u8
        ensures last { IsLastFrame result self.now }
    {
        self.tab.last_frame()
    }

    /// The storage key of a frame's document, as `Tab::key` gives it.
    pub fn key(&self, frame: u8) -> Option<&StorageKey>
        ensures key { option_map plain_key (option_copied result) ≡ key_of_frame frame self.now }
    {
        let place = self.places[usize::from(frame)];
        let tab = self.tab;
        key_of(frame_at(tab.frames.as_slice(), usize::from(place), frame))
    }
}
