//! How the local script of a site grows along a run over a store, and when two runs give a site the
//! same one.
//!
//! This crate is definitions: its functions have no body. By [`collections`] what a program keeps
//! line by line is, once the run has ended, the local script of the site. By [`good_histories`]
//! that run has one history, and by [`twins`] two scripts have one answer at most.
#![tactic(auto)]

ghost use Rattle.script_courses.specs.GivenBy.{GivesByOne, KeepsEntries};
ghost use Rattle.script_courses.specs.GoodHistories.{GivesGood, GivesTheOnly};
ghost use Rattle.script_courses.specs.Laws.{BeginsWithNothing, EndsWithScript, GoesByOwnDomain};
ghost use Rattle.script_courses.specs.Laws.{GrowsByCommit, GrowsByLine, GrowsByRestart, HoldsMore};
ghost use Rattle.script_courses.specs.Laws.{WaitsAsHeld};
ghost use Rattle.script_courses.specs.Twins.{AnswersByItems, HasOneAnswer, PrintsTheSame};
ghost use Rattle.script_courses.specs.Twins.{TellsOfLines};

use printed_model::printed_histories_are_isolated;

/// The history of given lines over a new store on a disk without cuts: there is one, and no other.
pub fn good_histories()
    ensures good { GivesGood }
    ensures only { GivesTheOnly }
{}

/// What is to be collected of a run, at its beginning, by a line, by a commit and by a restart; and
/// that it is the local script in the end. Of the cookies that events of other sites have left
/// different only those of the site's own domain matter.
pub fn collections()
    ensures begins { BeginsWithNothing }
    ensures line { GrowsByLine }
    ensures commit { GrowsByCommit }
    ensures restart { GrowsByRestart }
    ensures ends { EndsWithScript }
    ensures waits { WaitsAsHeld }
    ensures holds { HoldsMore }
    ensures domain { GoesByOwnDomain }
{}

/// Two scripts have one answer at most, and it is found by the items of each. Where their local
/// scripts are equal, the lines of the site are equal, too. They are as many as the acknowledged
/// replies that the script tells of.
pub fn twins()
    ensures one { HasOneAnswer }
    ensures answers { AnswersByItems }
    ensures same { PrintsTheSame }
    ensures count { TellsOfLines }
{
    printed_histories_are_isolated();
}

/// Entries stay: a run of more lines gives a site those of a run of the first ones, and more behind
/// them. So each entry is given by one line.
pub fn entries()
    ensures stay { KeepsEntries }
    ensures line { GivesByOne }
{}
