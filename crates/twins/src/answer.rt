//! The answer to two scripts.
ghost use Rattle.std.specs.Prelude.{◌<◌, ◌^◌};
ghost use Rattle.script_courses.specs.Twins.{acknowledged_in};
ghost use Rattle.twins.specs.Plain.{plain_twin};
ghost use Rattle.twins.specs.Comparing.{Compares};
ghost use Rattle.twins.specs.Scripts.{items_of};

use crate::counts::acknowledged;
use crate::scripts::LocalScript;
use local_scripts::first_difference;

/// The answer to two scripts.
#[derive(Clone, Copy, Debug, PartialEq, Eq)]
pub enum Twin {
    /// The local scripts are equal, and so many reply lines of the site are printed of each.
    Equal { lines: u64 },
    /// They first differ at this entry, from 0; at the number of entries where only their ends
    /// differ.
    LocalDiffer { entry: u64 },
}

/// The answer to two local scripts.
pub fn compare(one: &LocalScript, other: &LocalScript) -> Twin
    requires few { acknowledged_in (items_of one.now) < 2 ^ 64 }
    ensures compares { Compares one.now other.now (plain_twin result) }
{
    if let Some(place) = first_difference(&one.entries, &other.entries) {
        return Twin::LocalDiffer {
            entry: place as u64,
        };
    }
    if one.end != other.end {
        return Twin::LocalDiffer {
            entry: one.entries.len() as u64,
        };
    }
    Twin::Equal {
        lines: acknowledged(&one.entries) + one.end.acknowledged,
    }
}
