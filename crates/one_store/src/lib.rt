//! One store for all sites, and the world of all sites that it stands for.
//!
//! A layer that keeps one list of tabs and one storage under combined keys has, for each site, the
//! part of it that is the site's. [`refinement`] has no body, and its contract says that each line
//! makes of these parts what the world makes of its partitions.
#![tactic(auto)]

ghost use Rattle.one_store.specs.Refinement.{AreReplies, AreSteps};

/// One store for all sites is the partitions of the world, laid over each other.
pub fn refinement()
    ensures steps { AreSteps }
    ensures replies { AreReplies }
{}
