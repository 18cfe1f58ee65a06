//! Where two local scripts first differ.
ghost use Rattle.std.specs.Prelude.{map};
ghost use Rattle.local_scripts.specs.Difference.{IsFirstDifference};
ghost use Rattle.local_scripts.specs.Items.{item_of};

use crate::{Item, same_item};

/// The place, from 0, of the first item at which two lists differ. Where one list is the front of
/// the other that is its length, and where they are equal there is none. Takes no memory.
pub fn first_difference(a: &[Item], b: &[Item]) -> Option<usize>
    ensures first { IsFirstDifference (map item_of a.now) (map item_of b.now) result }
{
    let shorter = a.len().min(b.len());
    for place in 0..shorter {
        if !same_item(&a[place], &b[place]) {
            return Some(place);
        }
    }
    if a.len() == b.len() {
        None
    } else {
        Some(shorter)
    }
}
