//! The world of all sites, the machine of one site, and the laws that tie them.
//!
//! This crate is definitions: `specs/` says what a run replies. Its functions have no body. By
//! [`isolation`] the replies to a site are those of its own machine, given its local script; by
//! [`local_scripts`] that script holds nothing of what documents do in tabs at other domains.
#![tactic(auto)]

ghost use Rattle.agent_model.specs.Isolation.{IsIsolated, HasIsolatedLines};
ghost use Rattle.agent_model.specs.SiteRuns.{AreRunReplies, AreSiteAnswers};
ghost use Rattle.agent_model.specs.Groups.{EachStandsApart};
ghost use Rattle.agent_model.specs.LocalScripts.{GivesExactly, GivesByOwn};
ghost use Rattle.agent_model.specs.LocalScripts.{RefusedGivesNone};
ghost use Rattle.agent_model.specs.LocalScripts.{OthersGiveNone, OthersLeftOut};
ghost use Rattle.agent_model.specs.LocalScripts.{LinesWithoutOthers, HoldsOnlyChanged};

/// The replies to a site are those of its own machine, given its local script alone.
pub fn isolation()
    ensures answers { IsIsolated }
    ensures lines { HasIsolatedLines }
{}

/// The same in few words of a run whose script stores no cookie: a site steps by its own events.
pub fn site_runs()
    ensures replies { AreRunReplies }
    ensures answers { AreSiteAnswers }
{}

/// A site is given its own events alone. What documents do in tabs at domains that share no cookies
/// with its own can be left out, and a cookie of its domain is held only where another site has
/// left it different. Domains share none where no document has asked for storage access.
pub fn local_scripts()
    ensures exact { GivesExactly }
    ensures own { GivesByOwn }
    ensures refused { RefusedGivesNone }
    ensures others { OthersGiveNone }
    ensures apart { EachStandsApart }
    ensures left_out { OthersLeftOut }
    ensures lines { LinesWithoutOthers }
    ensures held { HoldsOnlyChanged }
{}
