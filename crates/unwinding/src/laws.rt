ghost use Rattle.unwinding.specs.Setting.{Setting};
ghost use Rattle.unwinding.specs.Laws.{UnsharedUnwound, EpochUnwound, Unwound, SameReplies};
ghost use Rattle.unwinding.specs.Laws.{PrintedUnwound, RestartProjects, DurableFollows, CourseEnds};
ghost use Rattle.unwinding.specs.ScriptLaws.{GivesByOwn, OthersLeftOut, HoldsOnlyChanged};

/// A type that stands for a machine with all that the laws speak of.
pub trait Isolated {
    ghost setting: { Setting };
}

/// The replies to a site without shared cells, side events and restarts.
pub fn unshared_unwinding<M: Isolated>()
    ensures unwound { UnsharedUnwound M.setting }
{}

/// The replies to a site in a run without restart.
pub fn epoch_unwinding<M: Isolated>()
    ensures unwound { EpochUnwound M.setting }
{}

/// The replies to a site over every history.
pub fn unwinding<M: Isolated>()
    ensures unwound { Unwound M.setting }
{}

/// Equal local scripts give equal replies.
pub fn same_replies<M: Isolated>()
    ensures same { SameReplies M.setting }
{}

/// The replies to a site in what a run prints.
pub fn printed_unwinding<M: Isolated>()
    ensures unwound { PrintedUnwound M.setting }
{}

/// A restart of the world, seen at a site, is a restart of the site.
pub fn restart_projects<M: Isolated>()
    ensures projects { RestartProjects M.setting }
{}

/// The durable state follows the world, line by line.
pub fn durable_follows<M: Isolated>()
    ensures follows { DurableFollows M.setting }
{}

/// A run that ends has an admissible history.
pub fn course_ends<M: Isolated>()
    ensures admissible { CourseEnds M.setting }
{}

/// A local script holds little: what a line gives a site depends on few things, lines of others can
/// be left out, and a cell is held only where another site has left it different.
pub fn local_scripts<M: Isolated>()
    ensures own { GivesByOwn M.setting }
    ensures left_out { OthersLeftOut M.setting }
    ensures held { HoldsOnlyChanged M.setting }
{}
