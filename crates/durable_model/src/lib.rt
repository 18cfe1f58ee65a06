//! What is durable of the world, and what row changes and restarts make of it.
//!
//! This crate is definitions: `specs/` says what outlives a restart, what a row change makes of it,
//! and what a run over a store replies. Its functions have no body. By [`histories_are_isolated`]
//! the replies to a site are those of its own machine, over restarts and lost changes too.
#![tactic(auto)]

ghost use Rattle.std.specs.Prelude.{List};
ghost use Rattle.suffix_list.specs.Suffix.{Rule};
ghost use Rattle.durable_model.specs.Histories.{HasIsolatedHistories};
ghost use Rattle.durable_model.specs.Laws.{ChangesKeepValid, ChangesProject, HasFacts};
ghost use Rattle.durable_model.specs.Laws.{LinesAreValid, LinesKeep, OpensKept, RestartsProject};
ghost use Rattle.durable_model.specs.Migrate.{StatesMigrate};
ghost use Rattle.durable_model.specs.Saved.{Saved};

/// Row changes and restarts of one durable state are those of each site's part, and the durable
/// state follows the world.
pub fn lines_keep_durable_states()
    ensures facts { HasFacts }
    ensures projects { ChangesProject }
    ensures valid { ChangesKeepValid }
    ensures opens { OpensKept }
    ensures follows { LinesKeep }
    ensures valid_lines { LinesAreValid }
{}

/// Over every history of lines, restarts and lost changes, the printed lines of a site are those of
/// its own machine, given its local script alone.
pub fn histories_are_isolated()
    ensures lines { HasIsolatedHistories }
    ensures restarts { RestartsProject }
{}

/// What of a state stays under another list is told of each key and cell. All stays exactly where
/// nothing changes, and what stays is under the list and stays valid.
pub fn states_migrate()
    ensures law { (rules : List Rule) (d : Saved) → StatesMigrate rules d }
{}
